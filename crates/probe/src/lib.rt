// The check of a store alone, for the fuzz: it is not part of what makers link.
#![tactic(auto)]

ghost use Rattle.std.specs.Prelude.{◌≡◌};
ghost use Rattle.words.specs.Codec.{bit};
ghost use Rattle.layout.specs.Layout.{spells};

// 1 if the words spell a state, else 0.
#[unsafe(no_mangle)]
pub extern "C" fn probe_spells(store: &[u64]) -> u64
    ensures { result ≡ bit (spells store.now) }
{
    u64::from(check_state::spells(store))
}
