ghost use Rattle.std.specs.Prelude.{ℕ, List, Option};
ghost use Rattle.host_port.specs.Standing.{Standing};
ghost use Rattle.turn_rules.specs.Turn.{Ending, IsTurn};
ghost use Rattle.turn_rules.specs.TurnLaws.{IsSameTurn};
ghost use Rattle.host_port.specs.declared.call.Call.{Call};
ghost use Rattle.host_port.specs.declared.reply.Reply.{Reply};
ghost use Rattle.host_port.specs.declared.request.Request.{Request};

/// The turn from a point is one: two turns of one program from there have the same calls, burn the
/// same fuel and have the same ending. There is nothing to run; the clause is the law.
pub fn turns_are_one<Part>()
    ensures { (at : List Call → ℕ → Option Standing) (local : Part → Request → Option (Reply × Part))
        (most : ℕ) (part : Part) (calls : List Call) (n : ℕ)
        (one two : List Call) (used again : ℕ) (ending other : Ending) →
        IsTurn at local most part calls n one used ending →
        IsTurn at local most part calls n two again other →
        IsSameTurn one two used again ending other }
{}
