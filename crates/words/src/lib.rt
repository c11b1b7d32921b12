// Words of 32 bits as four bytes, the least first: how C hands over indices and takes steps.
#![tactic(auto)]

ghost use Rattle.std.specs.Prelude.{◌≡◌, ◌+◌, ◌≤◌, length};
ghost use Rattle.text.specs.Printed.{Printed};
ghost use Rattle.std.proofs.lemmas.List.Edits.{sets};
ghost use Rattle.words.specs.Little.{little, word_at, words_of};

// The four bytes of a word.
pub fn put_word(out: &mut [u8], at: usize, w: u32) -> usize
    ensures { Printed (little w) out.old at result out.new }
{
    let bytes = w.to_le_bytes();
    // four bytes that fit at once: a chain's steps go out sooner so (measured)
    if out.len() >= 4 && at <= out.len() - 4 {
        out[at..at + 4].copy_from_slice(&bytes);
        return at + 4;
    }
    text::bytes(out, at, &bytes)
}

// The word that four bytes from `at` on spell.
pub fn read_word(s: &[u8], at: usize) -> u32
    requires { at + 4 ≤ length s.now }
    ensures { result ≡ word_at s.now at }
{
    // byte by byte: an array made of the slice by try_from brings an error that can't come
    u32::from_le_bytes([s[at], s[at + 1], s[at + 2], s[at + 3]])
}

// The words that bytes spell, four bytes each, into a list; what lies past its end is left out.
pub fn read_words(s: &[u8], words: &mut [u32])
    ensures { words.new ≡ sets words.old 0 (words_of s.now) }
{
    // by index: of what is written through a zip's iter_mut a proof knows nothing
    for i in 0..words.len().min(s.len() / 4) {
        words[i] = read_word(s, 4 * i);
    }
}
