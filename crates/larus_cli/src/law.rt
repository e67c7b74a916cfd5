ghost use Rattle.std.specs.Prelude.{◌≡◌, ℕ, List, Some};
ghost use Rattle.text_core.specs.Names.{Text};
ghost use Rattle.io_core.specs.Held.{Held};
ghost use Rattle.io_core.specs.Known.{Known};
ghost use Rattle.larus_cli.specs.Outcome.{Sinks, Outcome, IsSettled, EndAlike};

/// Each outcome is one: two runs with the same words, over files that are known to hold the same,
/// put one text to the same sink with one status, unless a fetch failed (66), memory ran out (71)
/// or the sink failed (74). Where a proof is sought, the two texts may be those of two smallest
/// proofs, and where a countermodel is, those of two with the fewest elements.
pub fn one_outcome()
    ensures { (words : List Text) (held : Held) (files later other last : Known)
        (old new before after : Sinks) (status end : ℕ)
        → files.held ≡ Some held → other.held ≡ Some held
        → Outcome words files later old new status → Outcome words other last before after end
        → IsSettled status → IsSettled end → EndAlike words old new before after status end }
{}
