// Words moved among some words: a gap closed at their front, or opened there. Each loop is one act on words; the library's
// `copy_within` would call memmove, which a maker without a C library does not have.
ghost use Rattle.std.specs.Prelude.{◌≡◌, ◌-◌, ◌≤◌, length};
ghost use Rattle.words.specs.Act.{close, down, up};

// Closes a gap of `width` words at the front: the words after it move to the front, and the words that they leave become
// 0.
pub(crate) fn close_gap(words: &mut [u64], width: usize)
    requires { width ≤ length words.old }
    ensures { words.new ≡ (close width (length words.old - width)).run 0 words.old }
{
    let kept = words.len() - width;
    move_down(words, width);
    words[kept..].fill(0);
}

// The words after the first `width` move to the front.
fn move_down(words: &mut [u64], width: usize)
    requires { width ≤ length words.old }
    ensures { words.new ≡ (down width (length words.old - width)).run 0 words.old }
{
    for i in 0..words.len() - width {
        words[i] = words[width + i];
    }
}

// Opens a gap of `width` words at the front: the words there move up to the end, the last one first. The words of the gap
// stay as they are.
pub(crate) fn open_gap(words: &mut [u64], width: usize)
    requires { width ≤ length words.old }
    ensures { words.new ≡ (up width (length words.old - width)).run 0 words.old }
{
    for i in (0..words.len() - width).rev() {
        words[width + i] = words[i];
    }
}
