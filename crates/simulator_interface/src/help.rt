//! The program's help texts.
ghost use Rattle.std.specs.Option.{option_map};
ghost use Rattle.std.specs.Prelude.{◌≡◌, [], get_or, map, string_bytes};
ghost use Rattle.simulator_interface.specs.Help.{asked_help, help_on, is_help};

/// The program's help text, which fits one screen.
pub const HELP: &str = "\
usage: clock2q-simulate [OPTION].. CAPACITY.. [TRACE]..
Reports which part of a trace's accesses hit in a cache of each capacity.

A trace is a list of accesses in their order, a key a line: the names of the
files, blocks or pages that were asked for. It is a file, or - or nothing for
standard input. A capacity is how many keys a cache holds, as 500, 64k or 1M,
up to 16777215 for clock2q and clock, or a part of the trace's keys, as 10% or
0.1%. A range, as 10..1k or 1%..50%, adds 20, 50, 100 and so on between its
ends. If keys have sizes, it can be in bytes, as 64kB or 1GB (--help formats).

    printf 'a\\nb\\na\\nc\\nb\\nd\\na\\nb\\n' | clock2q-simulate 2 75%
    zstd -dc trace.zst | clock2q-simulate --svg 1%..50% >hits.svg
    ls *.trace | xargs -P 4 -n 1 clock2q-simulate --json 10%  # side by side

  --csv, --json, --svg  prints rows with commas, JSON, or a picture of a trace
  --policies=NAMES  compares these policies (--help policies)
  --format=FORMAT   reads lines, csv or oracleGeneral (--help formats)
  --column=N        takes the keys of csv from this column, 1 for the first
  --size-column=N   takes their sizes in bytes from this one (--help formats)
  --shares=SHARES   gives Clock2Q+ others than small=10%,window=50%,history=50%
  --best-shares     prints the shares that hit most of 24 tried, and their gain
  --sample=0.01     replays a part of the keys in smaller caches (SHARDS-adj)
  --skip=COUNT      counts no hits in this many accesses at a trace's beginning
  --window=COUNT    counts the hits of each COUNT accesses, in rows or a picture
  -h, --help        prints this text

Status: 2 if an argument or record is wrong, 3 if a capacity is too large or
memory ran out, 4 if a read or write failed. The first start proves it.
";

/// The help text on the formats of traces.
pub const FORMATS_HELP: &str = "\
The formats of traces, for --format:

  lines          a key a line, of any bytes; the default
  csv            comma-separated values: the keys are in the column --column=N,
                 1 for the first. The first line is a header, which is skipped,
                 unless there is --no-header; blank lines are skipped too.
                 --separator=CHARACTER, or tab, is for another than a comma. A
                 value may be between quotes, with each quote in it doubled, but
                 has no line end. The column --size-column=N has the size of each
                 access in bytes, as 4096.
  oracleGeneral  libCacheSim's records of 24 bytes, little endian: a time of 4
                 bytes, the key of 8, a size of 4, a next access of 8

With sizes each policy has a second figure: the bytes of its hits as a part of
the bytes asked for. Each access counts with its own size. OPT has the most
hits, not the most bytes. A capacity in bytes, as 500B, 64kB (64,000) or 64KiB
(65,536), up to TB and TiB, is for lru and fifo, whose hits are proved there,
and for clock, sieve, s3fifo and clock2q, whose hits are tested. Others have a
dash. A key keeps the size of the access that admitted it. One larger than the
cache isn't admitted; for another one keys are evicted until it fits. Shares
are of the bytes, and those of clock2q are in percent. Its key is young until
the window's part of the small queue's bytes were admitted there after it, and
its history is the keys evicted last that had so many bytes. s3fifo admits no
key larger than its small queue, a tenth, as libCacheSim does.

    clock2q-simulate --format=csv --column=2 --size-column=3 10% trace.csv
    zcat trace.gz | clock2q-simulate 1k -
    zstdcat oracle.zst | clock2q-simulate --format=oracleGeneral 0.1% -

A record that isn't of the format ends the program with its line or offset,
before anything is printed.
";

/// The help text on the policies.
pub const POLICIES_HELP: &str = "\
The policies, for --policies, with the titles and years of their papers. The
first five are the default.

  clock2q    Clock2Q+: a small queue, a main ring, and a history of evicted keys.
             Of --shares small is the small queue's share of the capacity, window
             the share of that queue in which a key is young, and history, which
             may be left out, the history's share of the capacity. --best-shares
             tries small=1% to 50%, and at 1% and 10% history=0, 25% and 90% too
  sieve      SIEVE is Simpler than LRU: an Efficient Turn-Key Eviction Algorithm
             for Web Caches (2024)
  s3fifo     FIFO Queues are All You Need for Cache Eviction (2023); a full main
             queue evicts before a key moves there
  lru        LRU: evicts the key that was used least recently
  opt        the most hits of any policy that keeps each key that it misses
  fifo       FIFO: evicts the key that was admitted first
  clock      A Paging Experiment with the Multics System (1968)
  arc        ARC: A Self-Tuning, Low Overhead Replacement Cache (2003)
  2q         2Q: A Low Overhead High Performance Buffer Management Replacement
             Algorithm (1994), the full version
  lirs       LIRS: An Efficient Low Inter-reference Recency Set Replacement
             Policy to Improve Buffer Cache Performance (2002)
  lru2       The LRU-K Page Replacement Algorithm for Database Disk Buffering
             (1993), with K = 2
  wtinylfu   TinyLFU: A Highly Efficient Cache Admission Policy (2017), with a
             window of a hundredth

clock2q and clock have capacities up to 16777215 keys, of the sample if there is
one. The others have up to 4294967295, if --policies leaves out these two.

    clock2q-simulate --policies=clock2q,lru 1%..50% trace
";

/// Returns the help text that the arguments ask for: `-h` or `--help`, and perhaps a subject after
/// it. Another word after it is ignored.
///
/// # Example
///
/// ```
/// assert_eq!(rt; help_for(&arguments), Some(POLICIES_HELP)); // of `--help policies`
/// ```
pub fn help_for(arguments: &[String]) -> Option<&'static str>
    ensures help { option_map (λ text. text.now) result ≡ asked_help (map string_bytes arguments.now) }
{
    for (index, argument) in arguments.iter().enumerate() {
        if is_help(argument.as_str()) {
            return Some(help_on(word_at(arguments, index + 1)));
        }
    }
    None
}

/// Returns true if a word asks for help.
fn is_help(word: &str) -> bool
    ensures help { result ≡ is_help word.now }
{
    word == "-h" || word == "--help"
}

/// Returns the text on a subject, or the general one.
fn help_on(subject: &str) -> &'static str
    ensures text { result.now ≡ help_on subject.now }
{
    if subject == "formats" {
        FORMATS_HELP
    } else if subject == "policies" {
        POLICIES_HELP
    } else {
        HELP
    }
}

/// Returns the word at an index, or an empty one past the end.
fn word_at(arguments: &[String], index: usize) -> &str
    ensures word { result.now ≡ get_or (map string_bytes arguments.now) index [] }
{
    match arguments.get(index) {
        Some(word) => word.as_str(),
        None => "",
    }
}
