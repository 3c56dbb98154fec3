// A script read before any call of it is made: whether every record of it is a call, and how many there are; and its calls one
// after the other. No call is made here, and the store is not needed.
#![tactic(auto)]

pub mod calls;

ghost use Rattle.std.specs.Prelude.{◌≡◌};
ghost use Rattle.row.specs.Script.{script_calls};
ghost use Rattle.row_script.specs.Counted.{counted};

use crate::calls::split_call;
use refusal::Refusal;

// How many calls a script has, if every record of it is one. A loop and no `count` of `Calls`, whose ghost field says that every
// record is a call, which is asked here.
pub fn count_calls(script: &[u64]) -> Result<usize, Refusal>
    ensures { result ≡ counted 0 (script_calls script.now) }
{
    let mut rest = script;
    let mut calls = 0;
    while !rest.is_empty() {
        let Some((_, after)) = split_call(rest) else {
            return Err(Refusal::NoCall);
        };
        rest = after;
        calls += 1;
    }
    Ok(calls)
}
