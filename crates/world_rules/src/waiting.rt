ghost use Rattle.std.specs.Prelude.{ℕ, List, [], ◌∷◌, ◌++◌, Option, Some, None, true, false, ◌≡◌};
ghost use Rattle.world_rules.specs.declared.entry.Entry.{Entry};
ghost use Rattle.world_rules.specs.declared.life.Birth.{Birth};
ghost use Rattle.world_rules.specs.Mail.{MailItem, is_wanted, tag_of, pick, unpicked};
ghost use Rattle.world_rules.specs.World.{World, first_world};
ghost use Rattle.world_rules.specs.Rules.{next};
ghost use Rattle.world_rules.specs.Births.{Terms};
ghost use Rattle.world_rules.specs.Allowed.{Allowed};
ghost use Rattle.world_rules.specs.Book.{Book};
ghost use Rattle.world_rules.specs.Told.{told, IsTold};
ghost use Rattle.world_rules.specs.Sound.{IsSound};
ghost use Rattle.world_rules.specs.Unmet.{AllUnmet};

/// In each world that a journal tells no process waits in receive for what lies in its mailbox already. So where an item
/// arrives at one that waits, the item alone is to be looked at: it is delivered and the mailbox stays, or it joins the
/// mailbox and the process waits on. It computes nothing.
pub fn waits_are_unmet()
    ensures first { (births : List Birth) → AllUnmet (first_world births) }
    ensures kept { (terms : Option Terms) (births : List Birth) (w : World) (entry : Entry) → IsSound w → AllUnmet w →
        Allowed terms births w entry → AllUnmet (next births w entry) }
    ensures all_told { (book : Book) → IsTold book → AllUnmet (told book) }
    ensures wanted { (tags : List ℕ) (mail : List MailItem) (item : MailItem) → pick tags mail ≡ None →
        is_wanted tags (tag_of item) ≡ true →
        (pick tags (mail ++ item ∷ []) ≡ Some item) × (unpicked tags (mail ++ item ∷ []) ≡ mail) }
    ensures unwanted { (tags : List ℕ) (mail : List MailItem) (item : MailItem) → pick tags mail ≡ None →
        is_wanted tags (tag_of item) ≡ false → pick tags (mail ++ item ∷ []) ≡ None }
{}
