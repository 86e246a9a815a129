ghost use Rattle.std.specs.Prelude.{◌≡◌, MatchOption};
ghost use Rattle.module_reader.specs.Kinds.{id_of};
ghost use Rattle.module_reader.specs.declared.kind.Kind.{Kind};

/// The kinds of sections with a form of their own, by rising ids (Core 1.0, 5.5.2).
#[derive(Clone, Copy, Debug, PartialEq, Eq)]
pub enum Kind {
    Types,
    Imports,
    Functions,
    Tables,
    Memories,
    Globals,
    Exports,
    Start,
    Elements,
    Bodies,
    Segments,
}

impl Kind {
    /// The kind with this id; none where no kind has it.
    pub fn of(id: u8) -> Option<Kind>
        ensures { MatchOption result ((kind : Kind) → id_of kind ≡ id → ⊥) (λ kind. id_of kind ≡ id) }
    {
        match id {
            1 => Some(Kind::Types),
            2 => Some(Kind::Imports),
            3 => Some(Kind::Functions),
            4 => Some(Kind::Tables),
            5 => Some(Kind::Memories),
            6 => Some(Kind::Globals),
            7 => Some(Kind::Exports),
            8 => Some(Kind::Start),
            9 => Some(Kind::Elements),
            10 => Some(Kind::Bodies),
            11 => Some(Kind::Segments),
            _ => None,
        }
    }
}
