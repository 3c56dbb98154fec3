// The calls of a script, each read where the one before it ends. Nothing is copied out of the script.
ghost use Rattle.std.specs.Prelude.{◌≡◌, true};
ghost use Rattle.rules.specs.Table.{is_some};
ghost use Rattle.row.specs.Script.{script_calls};
ghost use Rattle.row_script.specs.Split.{SplitsCall};

use trace_form::{Call, call_of};
use trace_read::MOST_WORDS;

// The first call of a script and the words after it; none where no whole call of at most 1,217 words stands there.
#[inline(always)]
pub(crate) fn split_call(script: &[u64]) -> Option<(Call, &[u64])>
    ensures { SplitsCall script.now result }
{
    let [kind, count, rest @ ..] = script else {
        return None;
    };
    let count = *count as usize;
    if MOST_WORDS < count {
        return None;
    }
    if rest.len() < count {
        return None;
    }
    let (words, after) = rest.split_at(count);
    let call = call_of(*kind, words)?;
    Some((call, after))
}

// The calls that are left of a script of which every record is one.
#[derive(Clone, Copy)]
pub struct Calls<'a> {
    pub script: &'a [u64],
    pub ghost formed: { is_some (script_calls script.now) ≡ true },
}

impl<'a> Iterator for Calls<'a> {
    ghost use Rattle.std.specs.Iterator.{item_count, YieldsFirstBy};
    ghost use Rattle.trace_form.specs.Calls.{as_call};
    ghost use Rattle.row_script.specs.Left.{calls_in};

    type Item = Call<'a>;

    ghost next_gives = { YieldsFirstBy (as_call 0) calls_in };

    ghost remaining = { item_count calls_in };

    #[inline(always)]
    fn next(&mut self) -> Option<Call<'a>> {
        let (call, rest) = split_call(self.script)?;
        self.script = rest;
        Some(call)
    }
}
