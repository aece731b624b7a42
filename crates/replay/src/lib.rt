// What the programs that replay the oracle's answers share: numbers from bit patterns, and lines that say how many answers are those due. What a
// line says is made by the function that compares.
#![tactic(auto)]

ghost use Rattle.std.specs.Prelude.{◌≡◌, ℕ, ◌+◌, ◌≤◌, length};
ghost use Rattle.storage.specs.Filled.{Filled};
ghost use Rattle.storage.specs.Store.{store};
ghost use Rattle.text.specs.Stored.{Prefix};
ghost use Rattle.replay.specs.Answers.{number_at, numbers_due, words_due};
ghost use Rattle.replay.specs.Line.{line_of, numbers_line, words_line};

// The numbers of the bit patterns from index `at` on, as many as `out` has places.
pub fn load(words: &[u64], at: usize, out: &mut [f64])
    requires { at + length out.old ≤ length words.now }
    ensures { Filled 0 (number_at words.now at) (length out.old) out.old out.new }
{
    for i in 0..out.len() {
        out[i] = number::number_of_bits(words[at + i]);
    }
}

// The numbers of a list of bit patterns.
pub fn numbers<const N: usize>(words: &[u64; N]) -> [f64; N]
    ensures { (old : _) × (length old ≡ N) × Filled 0 (number_at words.now 0) N old result }
{
    let mut out = [0.0; N];
    load(words, 0, &mut out);
    out
}

// How many numbers of a list have the bit patterns from index `at` on.
#[tactic(auto, using(storage::specs::Fold::fold_none, storage::specs::Fold::fold_more), unfolding(crate::specs::Answers::agrees_at))]
fn same(list: &[f64], words: &[u64], at: usize) -> usize
    requires { at + length list.now ≤ length words.now }
    ensures { result ≡ numbers_due list.now words.now at }
{
    let mut right: usize = 0;
    for i in 0..list.len() {
        right = right + usize::from(number::bits_of_number(list[i]) == words[at + i]);
    }
    right
}

// How many words of a list are those from index `at` on.
#[tactic(auto, using(storage::specs::Fold::fold_none, storage::specs::Fold::fold_more), unfolding(crate::specs::Answers::equal_at))]
fn same_words(list: &[u64], words: &[u64], at: usize) -> usize
    requires { at + length list.now ≤ length words.now }
    ensures { result ≡ words_due list.now words.now at }
{
    let mut right: usize = 0;
    for i in 0..list.len() {
        right = right + usize::from(list[i] == words[at + i]);
    }
    right
}

// The same of bytes.
#[tactic(auto, using(storage::specs::Fold::fold_none, storage::specs::Fold::fold_more), unfolding(crate::specs::Answers::equal_at))]
fn same_bytes(list: &[u8], bytes: &[u8], at: usize) -> usize
    requires { at + length list.now ≤ length bytes.now }
    ensures { result ≡ words_due list.now bytes.now at }
{
    let mut right: usize = 0;
    for i in 0..list.len() {
        right = right + usize::from(list[i] == bytes[at + i]);
    }
    right
}

// Stores a line at the front of out, and answers where it ends.
#[tactic(auto, using(text::specs::Digits::length_word))]
fn write_line(name: &[u8], right: usize, all: usize, out: &mut [u8]) -> usize
    requires { length name.now + 45 ≤ length out.old }
    ensures value { result ≡ length (line_of name.now right all) }
    ensures out_after { out.new ≡ store 0 (line_of name.now right all) out.old }
    ensures prefix { Prefix result out.new }
{
    let digits = text::write_bytes(out, 0, name);
    let of = text::write_decimal(out, digits, right);
    let last = text::write_bytes(out, of, b" of ");
    let end = text::write_decimal(out, last, all);
    out[end] = 10;
    end + 1
}

// The line of numbers and the bit patterns due from index `at` on: it stands at the front of out, and its length is the answer.
pub fn line(name: &[u8], answers: &[f64], words: &[u64], at: usize, out: &mut [u8]) -> usize
    requires fact_1 { at + length answers.now ≤ length words.now }
    requires fact_2 { length name.now + 45 ≤ length out.old }
    ensures value { result ≡ length (numbers_line name.now answers.now words.now at) }
    ensures out_after { out.new ≡ store 0 (numbers_line name.now answers.now words.now at) out.old }
    ensures prefix { Prefix result out.new }
{
    let right = same(answers, words, at);
    write_line(name, right, answers.len(), out)
}

// The same of words: bit patterns, refusal numbers, degrees.
pub fn words_line(name: &[u8], answers: &[u64], words: &[u64], at: usize, out: &mut [u8]) -> usize
    requires fact_1 { at + length answers.now ≤ length words.now }
    requires fact_2 { length name.now + 45 ≤ length out.old }
    ensures value { result ≡ length (words_line name.now answers.now words.now at) }
    ensures out_after { out.new ≡ store 0 (words_line name.now answers.now words.now at) out.old }
    ensures prefix { Prefix result out.new }
{
    let right = same_words(answers, words, at);
    write_line(name, right, answers.len(), out)
}

// The same of bytes.
pub fn bytes_line(name: &[u8], answers: &[u8], bytes: &[u8], at: usize, out: &mut [u8]) -> usize
    requires fact_1 { at + length answers.now ≤ length bytes.now }
    requires fact_2 { length name.now + 45 ≤ length out.old }
    ensures value { result ≡ length (words_line name.now answers.now bytes.now at) }
    ensures out_after { out.new ≡ store 0 (words_line name.now answers.now bytes.now at) out.old }
    ensures prefix { Prefix result out.new }
{
    let right = same_bytes(answers, bytes, at);
    write_line(name, right, answers.len(), out)
}
