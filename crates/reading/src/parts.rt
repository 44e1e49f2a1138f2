ghost use Rattle.std.specs.Prelude.{◌≤◌, length};
ghost use Rattle.tables.specs.Store.{Named};

use crate::line::{Line, is_comment, is_lib};
use lent::index::{Index, bucket};
use lent::table::Table;
use library::faults::{BadLine, LineFault, ReadFault};
use lines::items::item;
use operands::{end, word};
use tables::draft::Draft;
use tables::tables::Tables;
use text::lines::Lines;
use text::reader::{Reader, Span};
use text::words::slice;

// The tables, and an index of the libraries by name, with room for as many.
#[derive(Drop)]
pub struct Parts<'t, 'a> {
    pub tables: Tables<'t, 'a>,
    pub names: Index<'a>,
    ghost next_wide: { tables.rows ≤ length names.next.now },
    ghost heads_wide: { tables.rows ≤ length names.heads.now },
    ghost named: { Named tables names },
}

impl<'t, 'a> Parts<'t, 'a> {
    ghost use Rattle.std.specs.Prelude.{◌≡◌, ◌/◌, ◌<◌, Some, None, Ok, Err, MatchResult};
    ghost use Rattle.text.specs.Words.{words_of};
    ghost use Rattle.text.specs.Readers.{bytes, words};
    ghost use Rattle.library.specs.Text.{finished, lib_words, lib_line, library_item, line, read};
    ghost use Rattle.tables.specs.Store.{store, draft_of, progress, libraries, Room, opened};
    ghost use Rattle.reading.specs.Steps.{Kept, Shut, Finished, Began, Itemed, Lined, takes_rows, Blank, Failed};

    // Tables without rows: of each 31 words, 30 are for a row of each table and of the index, and 1 is a bucket.
    pub fn new(text: &'t [u8], work: &'a mut [u64]) -> Parts<'t, 'a>
        ensures text { result.tables.text.now ≡ text.now }
        ensures rows { result.tables.rows ≡ length work.old / 31 }
        ensures blank { Blank result }
    {
        let rows = work.len() / 31;
        let (libs, work) = work.split_at_mut(13 * rows);
        let (needs, work) = work.split_at_mut(2 * rows);
        let (defs, work) = work.split_at_mut(6 * rows);
        let (cells, work) = work.split_at_mut(6 * rows);
        let (inits, work) = work.split_at_mut(rows);
        let (finis, work) = work.split_at_mut(rows);
        let (next, heads) = work.split_at_mut(rows);
        let tables = Tables {
            text,
            rows,
            libs: Table::new(libs),
            needs: Table::new(needs),
            defs: Table::new(defs),
            inits: Table::new(inits),
            finis: Table::new(finis),
            cells: Table::new(cells),
        };
        let names = Index::new(heads, next);
        Parts { tables, names }
    }

    // The draft becomes a library, and its name is indexed.
    fn close(&mut self, draft: Draft)
        requires kept { Kept self.old (Some draft) }
        requires room { Room self.old.tables 1 0 }
        ensures { Shut self.old self.new draft }
    {
        let name = slice(self.tables.text, draft.name);
        let h = bucket(name, self.names.heads.len());
        let n = self.tables.libs.len;
        self.tables.close(draft);
        self.names.insert(n, h).unwrap();
    }

    // The library that was being read, if any, is done.
    fn finish(&mut self, held: Option<Draft>) -> Result<(), BadLine>
        requires kept { Kept self.old held }
        requires room { Room self.old.tables (opened held) 0 }
        ensures { MatchResult result (λ _. Finished self.old self.new held) (λ e. finished (progress (store self.old.tables) held) ≡ Err e) }
    {
        let Some(draft) = held else {
            return Ok(());
        };
        self.tables.checked(draft)?;
        self.close(draft);
        Ok(())
    }

    // The name behind `lib`, which no library has yet.
    fn lib_name(&self, rest: &mut Reader) -> Result<Span, LineFault>
        requires kept { Kept self.now None }
        requires text { rest.old.text.now ≡ self.now.tables.text.now }
        ensures { MatchResult result (λ x. lib_words (libraries self.now.tables) (words rest.old) ≡ Ok (bytes self.now.tables.text.now x)) (λ e. lib_words (libraries self.now.tables) (words rest.old) ≡ Err e) }
    {
        let name = word(rest)?;
        if self.tables.find(&self.names, rest.part(name)).is_some() {
            return Err(LineFault::DuplicateLibrary);
        }
        end(rest)?;
        Ok(name)
    }

    // A line `lib`, without that word.
    fn lib_line(&mut self, held: Option<Draft>, line: &mut Line) -> Result<Draft, BadLine>
        requires kept { Kept self.old held }
        requires room { Room self.old.tables (opened held) 1 }
        requires text { line.old.rest.text.now ≡ self.old.tables.text.now }
        ensures { MatchResult result (λ d. Began self.old self.new line.old.number held d (words line.old.rest)) (λ e. lib_line line.old.number (progress (store self.old.tables) held) (words line.old.rest) ≡ Err e) }
    {
        self.finish(held)?;
        match self.lib_name(&mut line.rest) {
            Ok(name) => Ok(self.tables.begin(name)),
            Err(fault) => Err(line.bad(fault)),
        }
    }

    // A line of the library that is being read, without its first word.
    fn item_line(&mut self, draft: Draft, keyword: &[u8], line: &mut Line) -> Result<Draft, BadLine>
        requires kept { Kept self.old (Some draft) }
        requires room { Room self.old.tables 1 1 }
        requires text { line.old.rest.text.now ≡ self.old.tables.text.now }
        ensures { MatchResult result (λ d. Itemed self.old self.new line.old.number draft d keyword.now (words line.old.rest)) (λ e. library_item line.old.number (progress (store self.old.tables) (Some draft)) (draft_of (store self.old.tables) draft) keyword.now (words line.old.rest) ≡ Err e) }
    {
        match item(keyword, &mut line.rest) {
            Ok(item) => {
                let next = self.tables.put(line.number, draft, item);
                self.tables.sized(line.number, next)?;
                Ok(next)
            }
            Err(fault) => Err(line.bad(fault)),
        }
    }

    // A line of the text. The draft that is being read stands beside the parts, for a line takes it and gives the next: as a field
    // it would have to be taken out and put back each time.
    fn line(
        &mut self,
        number: usize,
        held: Option<Draft>,
        part: Span,
    ) -> Result<Option<Draft>, BadLine>
        requires kept { Kept self.old held }
        requires room { Room self.old.tables (opened held) (takes_rows (words_of (bytes self.old.tables.text.now part))) }
        ensures { MatchResult result (λ d. Lined self.old self.new number held d (words_of (bytes self.old.tables.text.now part))) (λ e. line number (progress (store self.old.tables) held) (words_of (bytes self.old.tables.text.now part)) ≡ Err e) }
    {
        let rest = Reader::new(self.tables.text, part);
        let mut line = Line { number, rest };
        let Some(first) = line.rest.word() else {
            return Ok(held);
        };
        let keyword = line.rest.part(first);
        if is_comment(keyword) {
            return Ok(held);
        }
        if is_lib(keyword) {
            return Ok(Some(self.lib_line(held, &mut line)?));
        }
        let Some(draft) = held else {
            return Err(line.bad(LineFault::OutsideLibrary));
        };
        Ok(Some(self.item_line(draft, keyword, &mut line)?))
    }

    // All lines of the text, one after the other.
    fn lines(&mut self) -> Result<(), BadLine>
        requires blank { Blank self.old }
        requires room { length self.old.tables.text.now / 2 < self.old.tables.rows }
        ensures { MatchResult result (λ _. read self.old.tables.text.now ≡ Ok (libraries self.new.tables)) (λ e. read self.old.tables.text.now ≡ Err e) }
    {
        let text = self.tables.text;
        let whole = Span {
            start: 0,
            end: text.len(),
        };
        let mut held: Option<Draft> = None;
        for (number, part) in (1usize..).zip(Lines::new(text, whole)) {
            held = self.line(number, held, part)?;
        }
        self.finish(held)
    }

    // Reads a text into lent words: enough of them have room for a row in each table for every two bytes.
    pub fn read(text: &'t [u8], work: &'a mut [u64]) -> Result<Parts<'t, 'a>, ReadFault>
        ensures { MatchResult result (λ p. read text.now ≡ Ok (libraries p.tables)) (Failed text.now (length work.old)) }
    {
        let mut parts = Parts::new(text, work);
        if parts.tables.rows <= text.len() / 2 {
            return Err(ReadFault::TooFewWords);
        }
        parts.lines()?;
        Ok(parts)
    }
}
