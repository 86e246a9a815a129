ghost use Rattle.std.specs.Prelude.{◌≡◌, ◌<◌, ◌+◌, ◌∷◌, ℕ, List, [], Some, None, true, false, slice_get};
ghost use Rattle.host_port.specs.declared.start.Start.{Start};
ghost use Rattle.host_port.specs.Standing.{Running};
ghost use Rattle.world_rules.specs.declared.life.Birth.TheVariants.{Born};
ghost use Rattle.world_rules.specs.declared.life.Ended.{Ended as EndMemory};
ghost use Rattle.world_rules.specs.Book.{Book};
ghost use Rattle.world_rules.specs.Lives.{Setting, Begins};
ghost use Rattle.world_rules.specs.Part.{no_part};
ghost use Rattle.world_rules.specs.Spawn.{next_number, spawn_counted};
ghost use Rattle.world_rules.specs.Told.{told};
ghost use Rattle.world_rules.specs.World.{World, Ready, fresh_process, with_process};
ghost use Rattle.node_state.specs.Seats.{meaning};
ghost use Rattle.node_mirror.specs.Held.{Held, Mirrors, StandsFor, HasProgram};
ghost use Rattle.node_mirror.specs.Slots.{Nobody, Home};
ghost use Rattle.node_mirror.specs.Steps.{born, one_birth_more};

use host_port::Engine;

/// A spawn is performed, and a child is born with the next number, at home at the begin of the run of its start; or no
/// child is.
pub fn a_birth_mirrors<E: Engine>()
    ensures counted { (setting : Setting E.Program) (w : World) (held : Held E) (ends : List EndMemory) →
        Mirrors (meaning E.stands E.phase E.memory) setting w held ends →
        Mirrors (meaning E.stands E.phase E.memory) setting (spawn_counted w) (one_birth_more held) ends }
    ensures born { (setting : Setting E.Program) (w : World) (held : Held E) (ends : List EndMemory) (start : Start)
        (engine : E) →
        Mirrors (meaning E.stands E.phase E.memory) setting w held ends → held.numbers < held.births →
        w.over ≡ false → start.pid ≡ next_number w → HasProgram setting.programs start →
        ((program : E.Program) → slice_get setting.programs start.«module» ≡ Some program →
        E.stands engine program start [] 0) → E.phase engine ≡ Running →
        Mirrors (meaning E.stands E.phase E.memory) setting
        (record (with_process w (next_number w) (fresh_process start Ready)) { numbers_drawn = next_number w })
        (born held (next_number w)
        (record { engine = engine; start = start; part = no_part; fuel = 0; owed = None })) ends }
{}

/// A node that holds process 1 at its begin, and nothing else, stands for the journal of its birth.
pub fn first_node_stands<E: Engine>()
    ensures { (setting : Setting E.Program) (book : Book) (held : Held E) (start : Start) (engine : E) →
        Begins setting → setting.first ≡ start → book.births ≡ Born start ∷ [] → book.entries ≡ [] →
        book.ends ≡ [] → 0 < book.entry_room →
        ((program : E.Program) → slice_get setting.programs start.«module» ≡ Some program →
        E.stands engine program start [] 0) →
        E.phase engine ≡ Running →
        held ≡ born (record {
          slots = λ pid. Nobody;
          mail = λ pid. [];
          deadlines = λ pid. None;
          names = λ name. None;
          ready = 1 ∷ [];
          numbers = 0;
          births = 1;
          unended = 0;
          out = 0;
          sends = 0;
          time = 0;
          row = 0;
          over = false;
          streams = 0;
          closed = [];
        }) 1 (record { engine = engine; start = start; part = no_part; fuel = 0; owed = None }) →
        StandsFor (meaning E.stands E.phase E.memory) setting book (told book) held }
{}
