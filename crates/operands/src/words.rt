ghost use Rattle.std.specs.Prelude.{◌≡◌, [], IfOk, Ok, Err, MatchResult, ◌≢◌};
ghost use Rattle.text.specs.Readers.{bytes, Within, words};
ghost use Rattle.library.specs.Lines.{takes, a_word, either};
ghost use Rattle.library.specs.declared.faults.LineFault.TheVariants.{SurplusWord};

use library::faults::LineFault;
use text::reader::{Reader, Span};

// The next word.
pub fn word(line: &mut Reader) -> Result<Span, LineFault>
    ensures text { line.new.text.now ≡ line.old.text.now }
    ensures within { IfOk result (Within line.old.text.now) }
    ensures takes { MatchResult result (λ x. takes a_word (words line.old) ≡ Ok (bytes line.old.text.now x, words line.new)) (λ e. takes a_word (words line.old) ≡ Err e) }
{
    line.word().ok_or(LineFault::MissingWord)
}

// The line has no more words.
pub fn end(line: &mut Reader) -> Result<(), LineFault>
    ensures { MatchResult result (λ _. words line.old ≡ []) (λ e. (e ≡ SurplusWord) × (words line.old ≢ [])) }
{
    match line.word() {
        Some(_) => Err(LineFault::SurplusWord),
        None => Ok(()),
    }
}

// Whether the next word is `yes` or `no`.
pub fn choice(line: &mut Reader, yes: &[u8], no: &[u8]) -> Result<bool, LineFault>
    ensures text { line.new.text.now ≡ line.old.text.now }
    ensures takes { MatchResult result (λ x. takes (either yes.now no.now) (words line.old) ≡ Ok (x, words line.new)) (λ e. takes (either yes.now no.now) (words line.old) ≡ Err e) }
{
    let w = word(line)?;
    let bytes = line.part(w);
    if bytes == yes {
        Ok(true)
    } else if bytes == no {
        Ok(false)
    } else {
        Err(LineFault::NotChoice)
    }
}
