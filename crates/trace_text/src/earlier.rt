//! What is kept of the lines before a line.

ghost use Rattle.std.specs.Prelude.{◌≡◌, ◌+◌, ◌-◌, ◌<◌, ◌^◌, List, IfOk, OnOk, is_some, nat_le};
ghost use Rattle.trace_text.specs.Causes.{binds_again, class_named, classed, classed_call, is_abandoned, is_call, is_call_over, keys_at, marks_at};
ghost use Rattle.trace_text.specs.Objects.{last_word};
ghost use Rattle.trace_text.specs.Places.{place_by, unless};
ghost use Rattle.trace_text.specs.Within.{caller_cause, read_cause, thread_cause};
ghost use Rattle.trace_text.specs.declared.line.Line.{Line};
ghost use Rattle.trace_text.specs.declared.line.Line.TheVariants as line;

use super::cause::Cause;
use super::header::Header;
use super::line::{Binding, Call, Keys, Line};
use super::name::{Name, Reference};
use super::text_seed::TextSeed;
use span::names::Class;
use std::alloc::{AllocError, Global};
use std::collections::{HashMap, HashSet};

/// The greatest count of a fill: as many keys as a shard has room for at once.
const MOST_KEYS: u32 = 262_144;

/// The greatest number of groups that a retirement may ask for: more than a shard has at any time.
const MOST_RETIRED: u32 = 1_048_576;

/// Whether the last word of the last of that many objects of the class is above every word, where
/// the first counts up from that value, and each other one from one more than the one before it.
#[inline(always)]
fn ends_over(class: Class, count: u32, value: u128) -> bool
    requires { 0 < count }
    ensures { result ≡ nat_le (2 ^ 128) (last_word class (value + count - 1)) }
{
    let above = u128::from(count - 1) + (class.words() - 1) as u128;
    value.checked_add(above).is_none()
}

/// What later lines need to know of those before them.
#[derive(Drop)]
pub struct Earlier {
    /// What each name is bound to.
    names: HashMap<Name, Binding, TextSeed>,
    /// The threads that have ended, and have not begun again since.
    ended: HashSet<u32>,
    /// Those of them that ended below the last barrier, so that their shards are not abandoned yet.
    leaving: HashSet<u32>,
    /// How many marks there are.
    section: usize,
    /// How many keys the names are bound to.
    keys: usize,
    /// Whether an adoption waits for its mark.
    awaits_mark: bool,
}

impl Earlier {
    ghost use Rattle.trace_text.specs.Earlier.{BindsName, Knows, NotesEnd, NotesLeaving, NotesNames, awaits_after, bound_in, place_or_cause};
    ghost use Rattle.trace_text.specs.Causes.{awaits_mark};
    ghost use Rattle.std.specs.Prelude.{[], Some, None};

    /// Before the first line, of a text whose names are hashed by that seed.
    pub fn new(alloc: Global, seed: TextSeed) -> Earlier
        ensures { Knows [] result }
    {
        Earlier {
            names: HashMap::with_hasher(alloc, seed),
            ended: HashSet::new(alloc),
            leaving: HashSet::new(alloc),
            section: 0,
            keys: 0,
            awaits_mark: false,
        }
    }

    /// What the name is bound to.
    #[inline(always)]
    pub fn binding(&self, name: &Name) -> Option<Binding>
        ensures { result ≡ bound_in self.now name.now }
    {
        self.names.get(name).copied()
    }

    /// Whether an adoption waits for its mark.
    pub fn awaits_mark(&self) -> bool
        ensures { (before : List Line) → Knows before self.now → result ≡ awaits_mark before }
    {
        self.awaits_mark
    }

    /// The class that a line of its kind binds the reference with, or that of one word where none
    /// does.
    #[inline(never)]
    fn class_of(&self, key: &Reference) -> Class
        ensures { (before : List Line) → Knows before self.now
            → result ≡ class_named before key.now }
    {
        match self.binding(&key.name) {
            Some(binding) if key.is_of_kind(binding.keys) => binding.class,
            _ => Class::C16,
        }
    }

    /// Gives a call the class that its key is bound with, where it is a set.
    #[inline(always)]
    fn give_call_class(&self, call: &mut Call)
        ensures { (before : List Line) → Knows before self.now
            → call.new ≡ classed_call before call.old }
    {
        if let Call::Set { key, class, .. } = call {
            *class = self.class_of(key);
        }
    }

    /// Gives a line after those the class that they bind its key with, where it is a set.
    #[inline(always)]
    pub fn give_class(&self, line: &mut Line)
        ensures { (before : List Line) → Knows before self.now
            → line.new ≡ classed before line.old }
    {
        if let Line::Call { call, .. } = line {
            self.give_call_class(call);
        }
    }

    /// Whether a number of the call is outside its range, after those lines.
    fn is_over(&self, call: &Call) -> bool
        ensures { (before : List Line) → Knows before self.now
            → result ≡ is_call_over before call.now }
    {
        match call {
            Call::Put { class, value, .. } => ends_over(*class, 1, *value),
            Call::Fill {
                class,
                count,
                value,
                ..
            } => *count == 0 || *count > MOST_KEYS || ends_over(*class, *count, *value),
            Call::Set { class, value, .. } => ends_over(*class, 1, *value),
            Call::Retire { most } => *most == 0 || *most > MOST_RETIRED,
            _ => false,
        }
    }

    /// What is wrong with the number of a thread or a shard.
    fn thread_cause(&self, header: &Header, thread: u32) -> Option<Cause>
        ensures { (before : List Line) → Knows before self.now
            → result ≡ thread_cause header.now before thread }
    {
        if thread >= header.shards {
            Some(Cause::Thread)
        } else if self.ended.contains(&thread) {
            Some(Cause::Ended)
        } else {
            None
        }
    }

    /// Whether the shard of the thread was abandoned, and has not begun again since.
    fn is_abandoned(&self, thread: u32) -> bool
        ensures { (before : List Line) → Knows before self.now
            → result ≡ is_abandoned before thread }
    {
        self.ended.contains(&thread) && !self.leaving.contains(&thread)
    }

    /// What is wrong with the number of the thread that makes a call.
    fn caller_cause(&self, header: &Header, thread: u32, call: &Call) -> Option<Cause>
        ensures { (before : List Line) → Knows before self.now
            → result ≡ caller_cause header.now before thread call.now }
    {
        if thread >= header.shards {
            Some(Cause::Thread)
        } else if self.ended.contains(&thread) && !call.begins_again() {
            Some(Cause::Ended)
        } else {
            None
        }
    }

    /// The place of the first key that a thread's call reads, 0 where it reads none; or what is
    /// wrong with what it reads, or with when it comes.
    fn read_place(&self, thread: u32, call: &Call) -> Result<usize, Cause>
        ensures { (before : List Line) → Knows before self.now
            → result ≡ unless (read_cause before thread call.now) (place_by before call.now) }
    {
        if call.begins_again() {
            return if self.is_abandoned(thread) {
                Ok(0)
            } else {
                Err(Cause::Early)
            };
        }
        let Some(name) = call.read_name() else {
            return Ok(0);
        };
        match self.binding(name) {
            Some(binding) if call.has_keys(binding.keys) => {
                if binding.section == self.section && binding.thread != thread {
                    Err(Cause::Early)
                } else {
                    Ok(binding.first)
                }
            }
            _ => Err(Cause::Unknown),
        }
    }

    /// The place of the first key that a thread's call after those lines reads, 0 where it reads
    /// none; or what is wrong with it, but for a name that it binds again.
    fn call_place(&self, header: &Header, thread: u32, call: &Call) -> Result<usize, Cause>
        ensures { (before : List Line) → Knows before self.now
            → result ≡ place_or_cause header.now before (line.Call thread call.now) }
    {
        if self.is_over(call) {
            return Err(Cause::Limit);
        }
        match self.caller_cause(header, thread, call) {
            Some(cause) => Err(cause),
            None => {
                if self.awaits_mark {
                    return Err(Cause::Adopt);
                }
                self.read_place(thread, call)
            }
        }
    }

    /// The place of the first key that a line after those reads, 0 where it reads none; or what is
    /// wrong with the line, where it has a form. That it binds a name again is told by `note`, so
    /// that the table is asked for the name once.
    pub fn place_of(&self, header: &Header, line: &Line) -> Result<usize, Cause>
        ensures { (before : List Line) → Knows before self.now
            → result ≡ place_or_cause header.now before line.now }
    {
        match line {
            Line::Silent | Line::Mark => Ok(0),
            Line::Adopt { shard } => match self.thread_cause(header, *shard) {
                Some(cause) => Err(cause),
                None => Ok(0),
            },
            Line::Call { thread, call } => self.call_place(header, *thread, call),
        }
    }

    /// Keeps what a name is bound to, and counts its keys. It answers whether the name was bound
    /// before.
    fn bind(&mut self, name: &Name, binding: Binding, count: usize) -> Result<bool, AllocError>
        ensures again { IfOk result (λ again. again ≡ is_some (bound_in self.old name.now)) }
        ensures names { OnOk result (BindsName self.old self.new name.now binding) }
        ensures keys { OnOk result (self.new.keys ≡ self.old.keys + count) }
        ensures ended { self.new.ended ≡ self.old.ended }
        ensures leaving { self.new.leaving ≡ self.old.leaving }
        ensures section { self.new.section ≡ self.old.section }
        ensures awaits { self.new.awaits_mark ≡ self.old.awaits_mark }
    {
        // More keys than a number counts find no memory.
        let keys = self.keys.checked_add(count).ok_or(AllocError)?;
        let before = self.names.insert(name.clone()?, binding)?;
        self.keys = keys;
        Ok(before.is_some())
    }

    /// Keeps what a thread's call binds, ends or lets begin again. It answers whether the call
    /// binds a name again.
    fn note_call(&mut self, place: usize, thread: u32, call: &Call) -> Result<bool, AllocError>
        ensures again { (before : List Line) → Knows before self.old
            → IfOk result (λ again. again ≡ binds_again before call.now) }
        ensures names { OnOk result (NotesNames self.old self.new place
            (line.Call thread call.now)) }
        ensures keys { OnOk result (self.new.keys ≡ self.old.keys + keys_at
            (line.Call thread call.now)) }
        ensures ended { OnOk result (NotesEnd self.old self.new (line.Call thread call.now)) }
        ensures leaving { OnOk result (NotesLeaving self.old self.new
            (line.Call thread call.now)) }
        ensures section { self.new.section ≡ self.old.section }
        ensures awaits { self.new.awaits_mark ≡ self.old.awaits_mark }
    {
        let section = self.section;
        let first = self.keys;
        let binding = |keys, class| Binding {
            keys,
            class,
            thread,
            section,
            line: place,
            first,
        };
        match call {
            Call::Put { name, class, .. } => self.bind(name, binding(Keys::One, *class), 1),
            Call::Fill {
                name,
                class,
                count,
                ..
            } => self.bind(name, binding(Keys::Many(*count), *class), *count as usize),
            Call::End => {
                self.ended.insert(thread)?;
                self.leaving.insert(thread)?;
                Ok(false)
            }
            Call::Begin => {
                self.ended.remove(&thread);
                self.leaving.remove(&thread);
                Ok(false)
            }
            _ => Ok(false),
        }
    }

    /// Keeps what a line says that follows those, at its place among them. It answers whether the
    /// line binds a name again.
    pub fn note(&mut self, place: usize, line: &Line) -> Result<bool, AllocError>
        requires { self.old.section < 2 ^ 64 - 1 }
        ensures again { (before : List Line) → Knows before self.old
            → IfOk result (λ again. again ≡ is_call (binds_again before) line.now) }
        ensures names { OnOk result (NotesNames self.old self.new place line.now) }
        ensures ended { OnOk result (NotesEnd self.old self.new line.now) }
        ensures leaving { OnOk result (NotesLeaving self.old self.new line.now) }
        ensures section { OnOk result (self.new.section ≡ self.old.section + marks_at line.now) }
        ensures keys { OnOk result (self.new.keys ≡ self.old.keys + keys_at line.now) }
        ensures awaits { OnOk result (self.new.awaits_mark
            ≡ awaits_after self.old.awaits_mark line.now) }
    {
        match line {
            Line::Silent => {}
            Line::Adopt { .. } => {
                self.leaving.clear();
                self.awaits_mark = true;
            }
            Line::Mark => {
                self.leaving.clear();
                self.awaits_mark = false;
                self.section += 1;
            }
            Line::Call { thread, call } => {
                let again = self.note_call(place, *thread, call)?;
                self.awaits_mark = false;
                return Ok(again);
            }
        }
        Ok(false)
    }
}
