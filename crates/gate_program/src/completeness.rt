//! Laws on whole runs, on checks and on filters. The functions do nothing: their contracts are the
//! laws.
ghost use Rattle.std.specs.Prelude.{◌≡◌, ℕ, ◌⊎◌, List};
ghost use Rattle.screen_kit.specs.Screens.{ScreenValue};
ghost use Rattle.gate_program.specs.Filters.{HasUnfailingFilter, HasWholeFilter, IsFiltered};
ghost use Rattle.gate_program.specs.UnfailingChecks.{HasUnfailingCheck, IsJudged};
ghost use Rattle.gate_program.specs.WholeInputs.{HasWholeInputs};
ghost use Rattle.gate_program.specs.Commands.{GateRun};
ghost use Rattle.gate_files.specs.Ports.{PortsValue};

/// A run over a limit file and inputs that are whole frames, in which nothing failed that was read
/// or written, ends with 0, unless memory was wanting, whatever its screens are.
pub fn whole_inputs_are_done()
    ensures { (words : List (List ℕ)) (sets : List (List ScreenValue))
        (before after : PortsValue) (status : ℕ)
        → HasWholeInputs words before after → GateRun words sets before after status
        → (status ≡ 0) ⊎ (status ≡ 8) }
{}

/// A check in which nothing failed that was read or written ends with 0 or 7 by its journal, or
/// with 3 by its limit file, unless memory was wanting (8), whatever its screens are.
pub fn unfailing_checks_are_judged()
    ensures { (words : List (List ℕ)) (sets : List (List ScreenValue))
        (before after : PortsValue) (status : ℕ)
        → HasUnfailingCheck words before after → GateRun words sets before after status
        → IsJudged status }
{}

/// A filter over a limit file and inputs that are whole frames, in which nothing failed that was read
/// or written, ends with 0, unless memory was wanting.
pub fn whole_filters_are_done()
    ensures { (words : List (List ℕ)) (sets : List (List ScreenValue))
        (before after : PortsValue) (status : ℕ)
        → HasWholeFilter words before after → GateRun words sets before after status
        → (status ≡ 0) ⊎ (status ≡ 8) }
{}

/// A filter in which nothing failed that was read or written ends with 0 or 4 by its inputs, or with
/// 3 by its limit file, unless memory was wanting (8).
pub fn unfailing_filters_are_done_or_cut()
    ensures { (words : List (List ℕ)) (sets : List (List ScreenValue))
        (before after : PortsValue) (status : ℕ)
        → HasUnfailingFilter words before after → GateRun words sets before after status
        → IsFiltered status }
{}
