// The definitions seen from the other side: one number a name, and one a key.
ghost use Rattle.std.specs.Prelude.{ℕ, List};
ghost use Rattle.key_types.specs.Numbers.{OneNumberEach};
ghost use Rattle.key_types.specs.declared.key.Key.{Key};

/// Two names, or two keys, have the same number exactly where they are equal.
pub fn one_number_each()
    ensures names { OneNumberEach (List ℕ) }
    ensures keys { OneNumberEach Key }
{}
