//! What help says below its list of words, and the version.

/// The version, which is also that of the crate `teurlaks` and of the header for C.
pub const VERSION: &str = "0.2.0";

/// Of the program itself.
pub const PROGRAM_HELP: &str = "\
A trace is a text with one call on a line, as threads of a program might make them: one puts a
value under a new key, looks a key up, sets it to another value, or frees it. A certificate is a text
that shows that no plan of folding groups onto one another has more folds than its own.
docs/FORMATS.md describes traces, reports and certificates, and examples/ has some of each.

Examples:
  meshrun run --replies examples/stale_key.trace
  meshrun check examples/chain_of_eight.cert

Exit status:
  0  done, or the certificate is accepted
  1  the text is no trace or no certificate, or the certificate is rejected
  2  the words are not those of a command
  3  memory ran out
  4  a run by threads was not as it ought to be
  5  a file could not be read or written";

/// Of `run`.
pub const RUN_HELP: &str = "\
A trace is a text: five lines of header, and then one call on a line. In this one, thread 0 puts the
value 5 under a new key, which the trace calls a, looks it up, and frees it:

  mesh 1
  shards 1
  pages 4
  ring 4
  gens 9
  0 put a 5
  0 get a
  0 free a

Its report with --replies has the number of each call's line with what the call answered, and then
the counts of pages, of live keys and of calls:

  6 key 0.0/0/1
  7 value 5
  8 yes
  end pages 1 live 0 calls 3
  audit ok

The other lines, where T is a thread and S a shard:

  T fill NAME COUNT V    puts V, V+1, .. in order, under NAME.0, NAME.1, ..
  T sweep NAME FROM TO   frees NAME.FROM up to, and without, NAME.TO
  T later NAME           leaves the key to the thread of its shard, to be freed later
  T tend                 frees the keys that were left to the thread
  T end                  ends the thread: at the next mark its groups go to the pool
  adopt S                at the next mark the shard takes a group of the pool
  mark                   all threads meet, and as many folds as possible are planned

Where the first line is mesh 2 to 6, put64, put256, fill64 and fill256 put objects of 4 and of 16
words, which hold V, V+1, .., and are found so. Where it is mesh 6, objects of 2 to 16 words are put
by put32, put48, .. put256 and fill32, fill48, .. fill256: the number is that of their bytes. There
is one line more from mesh 3 on, another from mesh 4 on, and two more from mesh 5 on:

  T set NAME V           replaces the value of the key by V, or by V, V+1, .., as wide as before
  T trim                 gives back the pages of the thread's shard on which nothing is live
  T retire K             the K groups of the thread's shard with the fewest live keys go to the pool
  T begin                lets a thread go on that has ended above an earlier mark

docs/FORMATS.md describes traces and reports, and examples/ has some of each.

Examples:
  meshrun run --replies examples/stale_key.trace
  meshrun run --certificate last.cert examples/chain_of_eight.trace
  meshrun run --serial - <examples/stale_key.trace";

/// Of `check`.
pub const CHECK_HELP: &str = "\
A certificate has the groups that a plan of folds could choose from, the plan, and a short set, which
shows that no plan has more folds. The check believes neither: it looks whether they say so.
docs/FORMATS.md describes certificates, and examples/ has some.

Example:
  meshrun check examples/chain_of_eight.cert";
