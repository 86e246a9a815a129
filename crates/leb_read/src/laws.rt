ghost use Rattle.std.specs.Prelude.{◌≡◌, ℕ, ℤ, List, ◌++◌};
ghost use Rattle.leb_read.specs.Numbers.{SpellsUnsigned, SpellsSigned};

/// At most one front of the bytes is a spelling, and it has one value. It computes nothing.
pub fn one_spelling()
    ensures unsigned { (N : ℕ) (a b x y : List ℕ) (v w : ℕ) → SpellsUnsigned N a v → SpellsUnsigned N b w
        → a ++ x ≡ b ++ y → (a ≡ b) × (v ≡ w) }
    ensures signed { (N : ℕ) (a b x y : List ℕ) (v w : ℤ) → SpellsSigned N a v → SpellsSigned N b w
        → a ++ x ≡ b ++ y → (a ≡ b) × (v ≡ w) }
{}
