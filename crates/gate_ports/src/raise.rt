//! Counters that stand still at the end of their type.
ghost use Rattle.std.specs.Prelude.{◌≡◌};
ghost use Rattle.gate_ports.specs.Faults.{one_more};
ghost use Rattle.gate_ports.specs.Real.{raised_where};

/// One more, up to the largest number.
pub(crate) fn raised(count: u64) -> u64
    ensures { result ≡ one_more count }
{
    count.saturating_add(1)
}

/// One more where there was a fault.
pub(crate) fn raised_if(has_failed: bool, count: u64) -> u64
    ensures { result ≡ raised_where has_failed count }
{
    if has_failed { raised(count) } else { count }
}
