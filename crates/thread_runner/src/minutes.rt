// The minutes of the marks of a run.
ghost use Rattle.std.specs.Prelude.{◌≡◌, ◌≤◌, ◌+◌, ◌<◌, ◌^◌, ◌++◌, ◌∷◌, [], IfOk, OnOk, vec_len};
ghost use Rattle.certificate.specs.Text.{IsWritable, certificate_text};
ghost use Rattle.thread_runner.specs.Marked.{note_at};
ghost use Rattle.trace_runner.specs.News.{mark_news};
ghost use Rattle.trace_runner.specs.declared.report.PlanNews.TheVariants.{Closed, Marked, TooMany};

use crate::body::Note;
use certificate::{Certificate, write};
use mesh_graph::Runner;
use std::alloc::{AllocError, Global};
use trace_runner::{CloseNews, PlanNews, Steps, mark_news};

/// What came of the marks so far.
#[derive(Drop)]
pub(crate) struct Minutes {
    /// How many marks there were.
    marks: usize,
    /// What the report tells of them, in order.
    notes: Vec<Note>,
    /// The text of the certificate of the last mark that planned; empty where none did.
    certificate: Vec<u8>,
    ghost few: { marks ≤ vec_len notes },
}

impl Minutes {
    /// No mark yet.
    pub(crate) fn new(alloc: Global) -> Minutes
        ensures marks { result.marks ≡ 0 }
        ensures notes { result.notes.items ≡ [] }
        ensures certificate { result.certificate.items ≡ [] }
    {
        Minutes {
            marks: 0,
            notes: Vec::new(alloc),
            certificate: Vec::new(alloc),
        }
    }

    // Keeps news that is told at the line of that place.
    fn tell(&mut self, place: usize, news: PlanNews) -> Result<(), AllocError>
        requires { place < 2 ^ 63 }
        ensures marks { self.new.marks ≡ self.old.marks }
        ensures notes { OnOk result (self.new.notes.items ≡ self.old.notes.items
            ++ note_at place news ∷ []) }
        ensures certificate { self.new.certificate ≡ self.old.certificate }
    {
        let line = place + 6;
        self.notes.push(Note { line, news })?;
        Ok(())
    }

    /// The mark at that place saw too many groups.
    pub(crate) fn refused(&mut self, place: usize) -> Result<(), AllocError>
        requires { place < 2 ^ 63 }
        ensures marks { OnOk result (self.new.marks ≡ self.old.marks + 1) }
        ensures notes { OnOk result (self.new.notes.items ≡ self.old.notes.items
            ++ note_at place (TooMany (self.old.marks + 1)) ∷ []) }
        ensures certificate { self.new.certificate ≡ self.old.certificate }
    {
        let mark = self.marks + 1;
        self.tell(place, PlanNews::TooMany(mark))?;
        self.marks = mark;
        Ok(())
    }

    /// The mark at that place planned, with so many pages in use. Its certificate is the last from
    /// now on. The runner fills the rows of its partners, by `pieces` if it goes by pieces.
    pub(crate) fn planned<R: Runner>(
        &mut self,
        runner: &R,
        alloc: Global,
        pieces: usize,
        place: usize,
        certificate: Certificate,
        pages: usize,
    ) -> Result<(), AllocError>
        requires ready { R.ready runner.now }
        requires pieces { 1 ≤ pieces }
        requires writable { IsWritable certificate }
        requires place { place < 2 ^ 63 }
        ensures marks { OnOk result (self.new.marks ≡ self.old.marks + 1) }
        ensures notes { OnOk result (self.new.notes.items ≡ self.old.notes.items ++ note_at place
            (Marked (mark_news (self.old.marks + 1) certificate pages)) ∷ []) }
        ensures certificate { OnOk result (self.new.certificate.items
            ≡ certificate_text certificate) }
    {
        let mark = self.marks + 1;
        self.certificate = write(alloc, &certificate)?;
        let news = mark_news(runner, alloc, pieces, mark, certificate, pages)?;
        self.tell(place, PlanNews::Marked(news))?;
        self.marks = mark;
        Ok(())
    }

    /// The plan of the last mark was closed after these steps, with so many pages in use, at the
    /// barrier that begins at that place.
    pub(crate) fn closed(
        &mut self,
        place: usize,
        steps: Steps,
        pages: usize,
    ) -> Result<(), AllocError>
        requires { place < 2 ^ 63 }
        ensures marks { self.new.marks ≡ self.old.marks }
        ensures notes { OnOk result (self.new.notes.items ≡ self.old.notes.items ++ note_at place
            (Closed (record { mark = self.old.marks; steps = steps; pages = pages })) ∷ []) }
        ensures certificate { self.new.certificate ≡ self.old.certificate }
    {
        self.tell(
            place,
            PlanNews::Closed(CloseNews {
                mark: self.marks,
                steps,
                pages,
            }),
        )
    }

    /// What the report tells of the marks, in order, and the text of the certificate of the last
    /// that planned; empty where none did.
    pub(crate) fn into_parts(self) -> (Vec<Note>, Vec<u8>)
        ensures notes { result.0 ≡ self.notes }
        ensures certificate { result.1 ≡ self.certificate }
    {
        let Minutes {
            notes,
            certificate,
            ..
        } = self;
        (notes, certificate)
    }
}
