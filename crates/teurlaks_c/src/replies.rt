// What crosses to C, in and out.

/// A key, in 12 bytes: the serial number of its span in the shard that opened that, the generation,
/// the shard, the slot, and two bytes that are zero in each key. Any numbers may be given; where no
/// live key has them, nothing is found.
#[repr(C)]
#[derive(Clone, Copy)]
pub struct RawKey {
    pub serial: u32,
    pub generation: u32,
    pub shard: u8,
    pub slot: u8,
    pub reserved: u16,
}

/// The name of a span, and of the group that it heads: the shard that opened it, and its serial
/// number there.
#[repr(C)]
#[derive(Clone, Copy)]
pub struct RawSpan {
    pub shard: u32,
    pub serial: u32,
}

/// A word of 128 bits: `high * 2^64 + low`.
#[repr(C)]
#[derive(Clone, Copy)]
pub struct RawWord {
    pub low: u64,
    pub high: u64,
}

/// Where a walk over the live keys of an arena stands: at this slot of the span that this shard
/// opened as its `serial`th. All zeros are its beginning.
#[repr(C)]
#[derive(Clone, Copy)]
pub struct RawWalk {
    pub shard: u32,
    pub serial: u32,
    pub slot: u32,
}

/// Where an arena stands, to be compared with another such place.
#[repr(C)]
#[derive(Clone, Copy)]
pub struct RawPlace {
    pub at: *const u8,
}

/// What a put answers: the key where the status is `OK`.
#[repr(C)]
#[derive(Clone, Copy)]
pub struct PutReply {
    pub status: u32,
    pub key: RawKey,
}

/// What a look-up answers: the word where the status is `OK`, else 0.
#[repr(C)]
#[derive(Clone, Copy)]
pub struct GetReply {
    pub value: RawWord,
    pub status: u32,
}

/// What a look-up answers that writes words: how many words the object has, where the status is
/// `OK` or `TOO_SMALL`; else 0.
#[repr(C)]
#[derive(Clone, Copy)]
pub struct WordsReply {
    pub status: u32,
    pub len: usize,
}

/// What many calls at once answer: how many were done, and `OK`, or why the next one was refused.
#[repr(C)]
#[derive(Clone, Copy)]
pub struct ManyReply {
    pub status: u32,
    pub count: usize,
}

/// What a step of a walk answers: the key that comes next where the status is `OK`.
#[repr(C)]
#[derive(Clone, Copy)]
pub struct NextReply {
    pub status: u32,
    pub key: RawKey,
}

/// What a retirement answers: how many groups went where the status is `OK`, else 0.
#[repr(C)]
#[derive(Clone, Copy)]
pub struct RetireReply {
    pub status: u32,
    pub count: usize,
}

/// What a trim answers: how many pages went where the status is `OK`, else 0.
#[repr(C)]
#[derive(Clone, Copy)]
pub struct TrimReply {
    pub status: u32,
    pub count: usize,
}

/// What a trim of some groups answers: how many groups these are, and how many pages went, where
/// the status is `OK`, else 0.
#[repr(C)]
#[derive(Clone, Copy)]
pub struct TrimPartReply {
    pub status: u32,
    pub groups: usize,
    pub pages: usize,
}

/// What a forgetting answers: how many spans went where the status is `OK`, else 0.
#[repr(C)]
#[derive(Clone, Copy)]
pub struct ForgetReply {
    pub status: u32,
    pub count: usize,
}

/// What a gathering answers: how many groups it looked at where the status is `OK`, else 0.
#[repr(C)]
#[derive(Clone, Copy)]
pub struct GatherReply {
    pub status: u32,
    pub count: usize,
}

/// What a part of a compaction answers: whether a further call has something to do (1 or 0), and
/// how many pages went, which is told whatever the status is.
#[repr(C)]
#[derive(Clone, Copy)]
pub struct CompactReply {
    pub status: u32,
    pub more: u32,
    pub pages: usize,
}

/// What a step of a compaction answers: whether a further one has something to do (1 or 0), what it
/// took of the budget, whether it was a fold (1 or 0), and the heads of the groups of that.
#[repr(C)]
#[derive(Clone, Copy)]
pub struct AdvanceReply {
    pub status: u32,
    pub more: u32,
    pub cost: usize,
    pub folded: u32,
    pub abandoned: RawSpan,
    pub owned: RawSpan,
}

/// What an adoption answers: the head of the group where the status is `OK`.
#[repr(C)]
#[derive(Clone, Copy)]
pub struct AdoptReply {
    pub status: u32,
    pub head: RawSpan,
}

/// What a mark answers where the status is `OK`: how many groups of the pool have a page, how many
/// groups the shards have, how many folds are planned, and how many groups are in the short set,
/// which shows that no plan has more folds.
#[repr(C)]
#[derive(Clone, Copy)]
pub struct MarkReply {
    pub status: u32,
    pub abandoned: usize,
    pub owned: usize,
    pub folds: usize,
    pub short_set: usize,
}

/// What a step answers: the heads of the pair where the status is `OK` or `EMPTIED`.
#[repr(C)]
#[derive(Clone, Copy)]
pub struct StepReply {
    pub status: u32,
    pub abandoned: RawSpan,
    pub owned: RawSpan,
}

/// What a certificate's text takes, in bytes, where the status is `OK` or `TOO_SMALL`.
#[repr(C)]
#[derive(Clone, Copy)]
pub struct CertificateReply {
    pub status: u32,
    pub len: usize,
}

/// How many pages of 4,096 bytes there are, and how many keys are live.
#[repr(C)]
#[derive(Clone, Copy)]
pub struct TotalsReply {
    pub pages: usize,
    pub live: usize,
}

/// What totals of an arena answer: how many pages of 4,096 bytes there are, and how many keys are
/// live, where the status is `OK`.
#[repr(C)]
#[derive(Clone, Copy)]
pub struct ArenaTotalsReply {
    pub status: u32,
    pub pages: usize,
    pub live: usize,
}

/// What tending its rings answers: how many keys the seat took, and freed, where the status is
/// `OK`, or before it met a lock that another thread has, where the status is `BUSY`.
#[repr(C)]
#[derive(Clone, Copy)]
pub struct TendReply {
    pub status: u32,
    pub count: usize,
}
