//! The instant of a commit that comes next.

ghost use Rattle.std.specs.Prelude.{◌≡◌, ◌<◌, ◌^◌, ◌↔◌, ℕ, ℤ, List, IfOk, IfErr, IfSome, IsErrOf, ◌⊎◌, Ok, Err, ⊤};
ghost use Rattle.std.specs.Option.{option_copied};
ghost use Rattle.std.specs.Ordering.{nat_cmp};
ghost use Rattle.std.specs.Cmp.Lexicographic.{slice_cmp};
ghost use Rattle.std.specs.declared.cmp.Ordering.TheVariants.{Less};
ghost use Rattle.table_history.specs.declared.limit.LimitKind.TheVariants.{Versions};
ghost use Rattle.hudi_names.specs.Time.{IsTime, IsSomeTime, IsPast9999};
ghost use Rattle.hudi_names.specs.Next.{IsNext};

use crate::error::HudiError;
use crate::time::{read_time, time_text};
use lake_basics::Text;
use std::alloc::Global;
use table_history::LimitKind;

const PAST_9999: HudiError = HudiError::Limit {
    which: LimitKind::Versions,
};

/// The digits of the next instant: the time of the clock, or the millisecond after the last instant
/// where that is later. Refused with `Limit Versions` past the year 9999.
pub fn next_instant(alloc: Global, last: Option<&Text>, now_ms: u64) -> Result<Text, HudiError>
    requires { IfSome (option_copied last) IsSomeTime }
    ensures next { IfOk result
        (λ t. (ms : ℤ) × IsTime t ms × IsNext (option_copied last.entry) now_ms ms) }
    ensures later { IfOk result
        (λ t. IfSome (option_copied last.entry) (λ l. slice_cmp nat_cmp l t ≡ Less)) }
    ensures limit { IsErrOf result (HudiError.Limit Versions)
        ↔ ((ms : ℤ) → IsNext (option_copied last.entry) now_ms ms → IsPast9999 ms) }
    ensures errors { IfErr result
        (λ e. (e ≡ HudiError.Memory) ⊎ (e ≡ HudiError.Limit Versions)) }
{
    if now_ms >= 1 << 63 {
        return Err(PAST_9999);
    }
    let ms = next_ms(last, now_ms);
    match time_text(alloc, ms)? {
        Some(text) => Ok(text),
        None => Err(PAST_9999),
    }
}

fn next_ms(last: Option<&Text>, now_ms: u64) -> i64
    requires clock { now_ms < 2 ^ 63 }
    requires real { IfSome (option_copied last) IsSomeTime }
    ensures { IsNext (option_copied last.entry) now_ms result }
{
    let now = now_ms as i64;
    let Some(last) = last else {
        return now;
    };
    match read_time(last.as_bytes()) {
        Some(before) => now.max(before + 1),
        None => now,
    }
}
