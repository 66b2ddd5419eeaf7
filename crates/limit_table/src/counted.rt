//! The quota as a run counts it.
ghost use Rattle.std.specs.Prelude.{◌≡◌, ◌≤◌};
ghost use Rattle.limit_table.specs.Counted.{counted_quota, counted_for};

use crate::limits::Limits;

/// The most sessions of a run in which each quota counts as it is.
pub const FEW_SESSIONS: u32 = 32;

/// The largest quota that counts in a run of more sessions.
pub const QUOTA_OF_MANY: u32 = 100_000;

/// The quota that counts where so many sessions run with this one.
fn counted_quota(sessions: u32, quota: u32) -> u32
    ensures { result ≡ counted_quota sessions quota }
{
    if FEW_SESSIONS < sessions {
        quota.min(QUOTA_OF_MANY)
    } else {
        quota
    }
}

impl Limits {
    /// The limits with which so many sessions run: where there are more than 32, a quota above
    /// 100,000 counts as 100,000.
    pub fn counted_for(self, sessions: u32) -> Limits
        ensures { result ≡ counted_for sessions self }
    {
        let Limits {
            firm,
            accounts,
            symbols,
            trip,
            quota,
            repeat,
            off,
        } = self;
        Limits {
            firm,
            accounts,
            symbols,
            trip,
            quota: counted_quota(sessions, quota),
            repeat,
            off,
        }
    }
}
