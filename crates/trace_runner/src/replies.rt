//! What a run keeps of the replies to its lines, and the report as it is told.

ghost use Rattle.std.specs.Prelude.{◌≡◌, ◌+◌, ◌++◌, ◌^◌, ◌≤◌, ◌∷◌, [], ℕ, IfOk, IfSome, OnErr, Option, OnOk, Some, length, option_map, slice_get};
ghost use Rattle.arena_core.specs.declared.reply.Reply.TheVariants.{Found, Freed, Replaced};
ghost use Rattle.span.specs.Classes.{IsObject};
ghost use Rattle.span.specs.declared.key.Key.{Key};
ghost use Rattle.trace_runner.specs.Kept.{AreHome, IsHome, KeepsButText, kept_in, kept_none, with_answer};
ghost use Rattle.trace_runner.specs.Answers.{answer_told, put_told};
ghost use Rattle.trace_runner.specs.Report.{news_text};

use crate::key_list::KeyList;
use crate::report::{Answer, Other, PlanNews};
use crate::writing::{push_answer_line, push_news};
use span::names::{Key, Object};
use std::alloc::{AllocError, Global};

/// What a run keeps of the replies to its lines: the keys, which later lines may name, and the
/// report so far. Of an answer that the report does not tell nothing is kept but that it was given.
#[derive(Drop)]
pub(crate) struct Replies {
    /// Of each put, in order, the key that it gave out.
    keys: KeyList,
    /// How many answers there are to calls that are no puts: each put has its key.
    others: usize,
    /// Whether the report tells the answers.
    asked: bool,
    /// The report so far: a line for each answer, where it tells them, and between them the news of
    /// plans.
    text: Vec<u8>,
}

impl Replies {
    /// No reply yet. The report tells the answers where they are asked for.
    pub(crate) fn new(alloc: Global, asked: bool) -> Replies
        ensures { kept_in result ≡ kept_none asked }
    {
        Replies {
            keys: KeyList::new(alloc),
            others: 0,
            asked,
            text: Vec::new(alloc),
        }
    }

    /// How many answers there are. `AllocError` comes exactly where they are more than a number
    /// counts.
    pub(crate) fn count(&self) -> Result<usize, AllocError>
        ensures count { IfOk result (λ count. count ≡ (kept_in self.now).count) }
        ensures err { OnErr result (2 ^ 64 ≤ (kept_in self.now).count) }
    {
        self.keys.len()?.checked_add(self.others).ok_or(AllocError)
    }

    /// The report so far.
    pub(crate) fn into_text(self) -> Vec<u8>
        ensures { result ≡ self.text }
    {
        self.text
    }

    /// The key that stands `place` places after the place `first` among the keys of all puts; none
    /// where the put was refused, or no such key stands.
    pub(crate) fn key(&self, first: usize, place: u32) -> Option<Key>
        ensures found { (found : Option Key) → slice_get self.now.keys.items (first + place)
            ≡ Some found → result ≡ found }
        ensures home { (shards : ℕ) → AreHome shards self.now.keys.items → IsHome shards result }
    {
        self.keys.key(first, place)
    }

    /// Counts an answer to a call that is no put, and tells it where the report does.
    pub(crate) fn tell(&mut self, line: usize, answer: &Answer) -> Result<(), AllocError>
        ensures count { OnOk result ((kept_in self.new).count ≡ (kept_in self.old).count + 1) }
        ensures text { OnOk result (self.new.text.items ≡ with_answer self.old line answer.now) }
        ensures keys { self.new.keys ≡ self.old.keys }
        ensures asked { self.new.asked ≡ self.old.asked }
    {
        let others = self.others.checked_add(1).ok_or(AllocError)?;
        self.write(line, answer)?;
        self.others = others;
        Ok(())
    }

    /// The same for what a look-up found: the words of an object, or nothing. They are copied only
    /// where the report tells them.
    pub(crate) fn tell_look_up(
        &mut self,
        line: usize,
        found: Option<&[u128]>,
    ) -> Result<(), AllocError>
        requires { IfSome found (λ words. IsObject words.now) }
        ensures count { OnOk result ((kept_in self.new).count ≡ (kept_in self.old).count + 1) }
        ensures text { OnOk result (self.new.text.items ≡ with_answer self.old line
            (answer_told (Found (option_map (λ words. words.now) found.entry)))) }
        ensures keys { self.new.keys ≡ self.old.keys }
        ensures asked { self.new.asked ≡ self.old.asked }
    {
        if !self.asked {
            return self.count_one();
        }
        match found {
            Some(words) => self.tell(line, &Answer::Value(Object::from_words(words))),
            None => self.tell(line, &Answer::Absent),
        }
    }

    /// The same for a set: whether it was done.
    pub(crate) fn tell_set(&mut self, line: usize, replaced: bool) -> Result<(), AllocError>
        ensures count { OnOk result ((kept_in self.new).count ≡ (kept_in self.old).count + 1) }
        ensures text { OnOk result (self.new.text.items ≡ with_answer self.old line
            (answer_told (Replaced replaced))) }
        ensures keys { self.new.keys ≡ self.old.keys }
        ensures asked { self.new.asked ≡ self.old.asked }
    {
        if !self.asked {
            return self.count_one();
        }
        self.tell(line, &answer_to_set(replaced))
    }

    /// The same for a free: whether the key was live.
    pub(crate) fn tell_free(&mut self, line: usize, freed: bool) -> Result<(), AllocError>
        ensures count { OnOk result ((kept_in self.new).count ≡ (kept_in self.old).count + 1) }
        ensures text { OnOk result (self.new.text.items ≡ with_answer self.old line
            (answer_told (Freed freed))) }
        ensures keys { self.new.keys ≡ self.old.keys }
        ensures asked { self.new.asked ≡ self.old.asked }
    {
        if !self.asked {
            return self.count_one();
        }
        self.tell(line, &answer_to_free(freed))
    }

    // Counts an answer that the report doesn't tell. An answer has the room of an object, so none
    // is made.
    fn count_one(&mut self) -> Result<(), AllocError>
        ensures count { OnOk result ((kept_in self.new).count ≡ (kept_in self.old).count + 1) }
        ensures text { self.new.text ≡ self.old.text }
        ensures keys { self.new.keys ≡ self.old.keys }
        ensures asked { self.new.asked ≡ self.old.asked }
    {
        self.others = self.others.checked_add(1).ok_or(AllocError)?;
        Ok(())
    }

    /// The same for a put: the key that it gave out, or none where its shard may have no further
    /// page. It is counted by its key.
    pub(crate) fn tell_put(&mut self, line: usize, key: Option<Key>) -> Result<(), AllocError>
        ensures count { OnOk result ((kept_in self.new).count ≡ (kept_in self.old).count + 1) }
        ensures text { OnOk result (self.new.text.items ≡ with_answer self.old line
            (put_told key)) }
        ensures keys { OnOk result (self.new.keys.items ≡ self.old.keys.items ++ key ∷ []) }
        ensures asked { self.new.asked ≡ self.old.asked }
    {
        self.keys.push(key)?;
        if self.asked {
            push_answer_line(&mut self.text, line, &answer_to_put(key))?;
        }
        Ok(())
    }

    // Adds the answer's line to the report, where it tells the answers.
    fn write(&mut self, line: usize, answer: &Answer) -> Result<(), AllocError>
        ensures text { OnOk result (self.new.text.items ≡ with_answer self.old line answer.now) }
        ensures keys { self.new.keys ≡ self.old.keys }
        ensures others { self.new.others ≡ self.old.others }
        ensures asked { self.new.asked ≡ self.old.asked }
    {
        if self.asked {
            push_answer_line(&mut self.text, line, answer)?;
        }
        Ok(())
    }

    /// Tells news of a plan.
    pub(crate) fn tell_news(&mut self, news: &PlanNews) -> Result<(), AllocError>
        ensures text { OnOk result (self.new.text.items ≡ self.old.text.items
            ++ news_text self.old.asked news.now) }
        ensures rest { KeepsButText self.old self.new }
    {
        push_news(&mut self.text, self.asked, news)
    }
}

/// What the report tells of a put.
fn answer_to_put(key: Option<Key>) -> Answer
    ensures { result ≡ put_told key }
{
    match key {
        Some(key) => Answer::Key(key),
        None => Answer::Other(Other::PagesSpent),
    }
}

/// What the report tells of a set.
pub(crate) fn answer_to_set(replaced: bool) -> Answer
    ensures { result ≡ answer_told (Replaced replaced) }
{
    if replaced {
        Answer::Replaced
    } else {
        Answer::NotReplaced
    }
}

/// What the report tells of a free.
pub(crate) fn answer_to_free(freed: bool) -> Answer
    ensures { result ≡ answer_told (Freed freed) }
{
    if freed {
        Answer::Freed
    } else {
        Answer::NotFreed
    }
}
