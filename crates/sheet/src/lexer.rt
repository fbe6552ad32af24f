//! Cuts a line into its words.
ghost use Rattle.std.specs.Prelude.{◌≡◌, ℕ, ◌≤◌, Bool, length};
ghost use Rattle.std.specs.Iterator.{YieldsFirstBy, item_count};
ghost use Rattle.std.specs.List.{prefix_len};
ghost use Rattle.sheet.specs.Ends.{without_end};
ghost use Rattle.sheet.specs.Words.{is_blank, is_comment, uncommented, plain_words, end_of};

/// The words that are still to come in a text that has no comment.
// A type of its own: `split(..).filter(..)` names its closures, so no function could hand it out.
#[derive(Drop)]
pub struct Words<'a> {
    rest: &'a [u8],
}

impl<'a> Words<'a> {
    /// All the words of a text that has no comment.
    pub fn new(text: &'a [u8]) -> Words<'a>
        ensures { result.rest.now ≡ text.now }
    {
        Words { rest: text }
    }

    /// The end of the words: there is none while a word is to come.
    pub fn end(mut self) -> Option<()>
        ensures { result ≡ end_of (plain_words self.entry.rest.now) }
    {
        self.next().is_none().then_some(())
    }
}

impl<'a> Iterator for Words<'a> {
    type Item = &'a [u8];

    ghost next_gives = { YieldsFirstBy (λ word. word.now) (λ words. plain_words words.rest.now) };

    ghost remaining = { item_count (λ words. plain_words words.rest.now) };

    /// The next word, which is then no longer to come.
    fn next(&mut self) -> Option<&'a [u8]> {
        let text = &self.rest[prefix_len(self.rest, is_blank)..];
        let (word, rest) = text.split_at(prefix_len(text, |byte| !is_blank(byte)));
        self.rest = rest;
        if word.is_empty() { None } else { Some(word) }
    }
}

/// The line without its line feed, and without a carriage return before that.
#[tactic(auto, using(crate::proofs::Ends::stripped_by))]
pub fn without_end(line: &[u8]) -> &[u8]
    ensures { result.now ≡ without_end line.now }
{
    match line.strip_suffix(b"\n") {
        Some(text) => text.strip_suffix(b"\r").unwrap_or(text),
        None => line,
    }
}

/// The line without its comment.
pub fn before_comment(text: &[u8]) -> &[u8]
    ensures { result.now ≡ uncommented text.now }
{
    &text[..prefix_len(text, |byte| !is_comment(byte))]
}

/// How many bytes the text begins with that pass the test.
fn prefix_len<F: Fn(u8) -> bool>(text: &[u8], test: F) -> usize
    requires { F.IsAlwaysCallable test }
    // p is what the test answers at each byte.
    ensures value { (p : ℕ → Bool) → ((b : ℕ) (r : Bool) → F.post test b r → r ≡ p b) → result ≡ prefix_len p text.now }
    ensures bound { result ≤ length text.now }
{
    text.iter().take_while(|byte| test(**byte)).count()
}

/// Whether the byte parts words.
fn is_blank(byte: u8) -> bool
    ensures { result ≡ is_blank byte }
{
    matches!(byte, b' ' | b'\t')
}

/// Whether the byte starts a comment.
fn is_comment(byte: u8) -> bool
    ensures { result ≡ is_comment byte }
{
    byte == b'#'
}
