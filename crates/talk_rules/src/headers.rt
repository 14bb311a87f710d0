// The header line.
ghost use Rattle.std.specs.Prelude.{◌≡◌};
ghost use Rattle.talk_rules.specs.Units.{header};

/// The header line, as the first record of a store has it.
pub fn header() -> &'static [u8]
    ensures { result.now ≡ header }
{
    b"adept 3\n"
}
