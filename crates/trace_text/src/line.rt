//! Lines of a trace.

use super::name::{Name, Reference};
use span::names::Class;

/// A call that a thread makes.
#[derive(Drop)]
pub enum Call {
    /// Puts the object of the class that counts up from `value`, and binds the name to its key.
    Put {
        name: Name,
        class: Class,
        value: u128,
    },
    /// Puts `count` objects of the class in order, which count up from `value`, from `value + 1`
    /// and so on, and binds the name to their keys.
    Fill {
        name: Name,
        class: Class,
        count: u32,
        value: u128,
    },
    /// Reads the object of a key.
    Get {
        key: Reference,
    },
    /// Replaces the object of a key by the one of the class that counts up from `value`. The class
    /// is in none of the line's words: it is that of the line which binds the key's name.
    Set {
        key: Reference,
        class: Class,
        value: u128,
    },
    /// Frees a key.
    Free {
        key: Reference,
    },
    /// Frees the keys of the name from `from` up to, and without, `to`.
    Sweep {
        name: Name,
        from: u32,
        to: u32,
    },
    /// Sends a key off to be freed later, by the thread of the shard that opened its span.
    Later {
        key: Reference,
    },
    /// Frees the keys that wait on the rings to the thread's shard.
    Tend,
    /// Gives back the pages of the open groups of the thread's shard that have no live slot.
    Trim,
    /// Lets up to `most` open groups of the thread's shard go to the pool, of those with a live
    /// slot: those with the fewest first.
    Retire {
        most: u32,
    },
    /// Ends the thread. Its shard is abandoned at the next barrier.
    End,
    /// Lets the shard of the thread, which was abandoned, run again.
    Begin,
}

/// A line below the header.
#[derive(Drop)]
pub enum Line {
    /// An empty line or a remark.
    Silent,
    /// A call of the thread of that number, counted from 0.
    Call { thread: u32, call: Call },
    /// At the mark that follows, the shard of that number adopts.
    Adopt { shard: u32 },
    /// The barrier: all calls above it are made before any below it.
    Mark,
}

/// The keys that a name is bound to.
#[derive(Clone, Copy)]
pub enum Keys {
    /// One, by a put. The name alone refers to it.
    One,
    /// That many, by a fill. The name and an index below this number refer to one of them.
    Many(u32),
}

/// What a name is bound to.
#[derive(Clone, Copy)]
pub struct Binding {
    /// The keys that it stands for.
    pub keys: Keys,
    /// The class of the objects that the line puts under them.
    pub class: Class,
    /// The thread whose line binds it.
    pub thread: u32,
    /// How many marks stand above that line.
    pub section: usize,
    /// The place of the line that binds it among the lines below the header, from 0.
    pub line: usize,
    /// The place of its first key among all keys that the lines bind, from 0; its other keys stand
    /// after that.
    pub first: usize,
}

impl Reference {
    ghost use Rattle.std.specs.Prelude.{◌≡◌};
    ghost use Rattle.trace_text.specs.Causes.{has_key, is_of_kind};

    /// Whether it refers to one of those keys.
    pub fn is_among(&self, keys: Keys) -> bool
        ensures { result ≡ has_key self.now.index keys }
    {
        match (keys, self.index) {
            (Keys::One, None) => true,
            (Keys::Many(count), Some(index)) => index < count,
            _ => false,
        }
    }

    /// Whether a line of its kind binds those keys: a put where it is a name alone, and a fill
    /// where it has an index.
    pub fn is_of_kind(&self, keys: Keys) -> bool
        ensures { result ≡ is_of_kind self.now.index keys }
    {
        match (keys, self.index) {
            (Keys::One, None) | (Keys::Many(_), Some(_)) => true,
            _ => false,
        }
    }
}

impl Call {
    ghost use Rattle.std.specs.Prelude.{◌≡◌, None, option_map, true};
    ghost use Rattle.trace_text.specs.Causes.{begins_again, bound_name, has_keys, read_name};

    /// Whether the call lets its thread begin again.
    pub fn begins_again(&self) -> bool
        ensures begins { result ≡ begins_again self.now }
        ensures nameless { result ≡ true → read_name self.now ≡ None }
    {
        matches!(self, Call::Begin)
    }

    /// The name that the call binds.
    pub fn bound_name(&self) -> Option<&Name>
        ensures { option_map (λ name. name.now) result ≡ bound_name self.now }
    {
        match self {
            Call::Put { name, .. } | Call::Fill { name, .. } => Some(name),
            _ => None,
        }
    }

    /// The name whose keys the call reads, sets, frees or sends off.
    pub fn read_name(&self) -> Option<&Name>
        ensures { option_map (λ name. name.now) result ≡ read_name self.now }
    {
        match self {
            Call::Get { key } | Call::Free { key } | Call::Later { key } => Some(&key.name),
            Call::Set { key, .. } => Some(&key.name),
            Call::Sweep { name, .. } => Some(name),
            _ => None,
        }
    }

    /// Whether the keys that the call reads, sets, frees or sends off are among those.
    pub fn has_keys(&self, keys: Keys) -> bool
        ensures { result ≡ has_keys self.now keys }
    {
        match self {
            Call::Get { key } | Call::Free { key } | Call::Later { key } => key.is_among(keys),
            Call::Set { key, .. } => key.is_among(keys),
            Call::Sweep { from, to, .. } => match keys {
                Keys::One => false,
                Keys::Many(count) => from <= to && *to <= count,
            },
            _ => true,
        }
    }
}
