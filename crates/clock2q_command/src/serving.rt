//! The program's whole work: from the bytes of a command text to the bytes of its replies.
ghost use Rattle.std.specs.Prelude.{◌≡◌, ◌≢◌, ◌↔◌, ◌<◌, OnOk, IfOk, IfErr, IsErrOf, map, nat_eq};
ghost use Rattle.clock2q_machine.specs.Steps.{answers};
ghost use Rattle.clock2q_text.specs.Commands.{call_of, AreSupplied};
ghost use Rattle.clock2q_text.specs.Parsing.{shares_value, script_value};
ghost use Rattle.clock2q_text.specs.Text.{output_of};
ghost use Rattle.clock2q_command.specs.Serve.{Answers, Makes, RepliesTo, IsServed, IsRefused, refusal_of};

use crate::commands::run;
use clock2q_cache::{Cache, CacheError, DefaultHashBuilder};
use clock2q_ports::{Sink, Source, read_all, send};
use clock2q_text::{ChosenShares, Command, Script, ServeError, parse, reply_text};
use std::alloc::Allocator;
use std::hash::BuildHasher;
use std::num::NonZeroUsize;

/// Makes the cache that a first line asks for.
fn new_cache<S: BuildHasher + Drop, A: Allocator>(
    alloc: &A,
    capacity: NonZeroUsize,
    chosen: Option<ChosenShares>,
    hasher: S,
) -> Result<Cache<u64, u64, S, &A>, CacheError>
    ensures { Makes (shares_value capacity chosen) (λ cache. cache.machine) result }
{
    let Some(
        ChosenShares {
            small,
            window,
            history,
        },
    ) = chosen
    else {
        return Cache::with_hasher(alloc, capacity, hasher);
    };
    match history {
        None => Cache::with_policy(alloc, capacity, small, window, hasher),
        Some(history) => Cache::with_history(alloc, capacity, small, window, history, hasher),
    }
}

/// Returns the program's refusal for a cache's.
fn refusal(error: CacheError) -> ServeError
    ensures { result ≡ refusal_of error }
{
    match error {
        CacheError::Memory => ServeError::Memory,
        CacheError::Capacity => ServeError::Capacity,
        CacheError::Policy => ServeError::Policy,
    }
}

/// Returns the text of a new cache's replies to a script.
fn reply_to<'a, S: BuildHasher + Drop, A: Allocator>(
    alloc: &'a A,
    script: Script<&'a A>,
    hasher: S,
) -> Result<Vec<u8, &'a A>, ServeError>
    requires { AreSupplied (map call_of script.commands.items) }
    ensures { RepliesTo (script_value (shares_value script.entry.capacity script.entry.chosen) script.entry.commands.items)
        (λ text. text.items) result }
{
    let Script {
        capacity,
        chosen,
        commands,
    } = script;
    match new_cache(alloc, capacity, chosen, hasher) {
        Ok(mut cache) => reply_with(alloc, &mut cache, commands),
        Err(error) => Err(refusal(error)),
    }
}

/// Returns the text of a cache's replies to commands.
fn reply_with<'a, S: BuildHasher, A: Allocator>(
    alloc: &'a A,
    cache: &mut Cache<u64, u64, S, &'a A>,
    commands: Vec<Command<u64, u64, &'a A>, &'a A>,
) -> Result<Vec<u8, &'a A>, ServeError>
    requires { AreSupplied (map call_of commands.items) }
    ensures text { IfOk result
        (λ text. text.items ≡
        output_of (answers nat_eq (map call_of commands.entry.items) cache.old.machine)) }
    ensures memory { IfErr result (λ e. e ≡ ServeError.Memory) }
{
    let Ok(replies) = run(alloc, cache, commands) else {
        return Err(ServeError::Memory);
    };
    Ok(reply_text(alloc, &replies)?)
}

/// Returns the text of the replies to all that a source gives.
fn answer<'a, R: Source, S: BuildHasher + Drop, A: Allocator>(
    alloc: &'a A,
    reader: &mut R,
    hasher: S,
) -> Result<Vec<u8, &'a A>, ServeError>
    ensures { Answers (R.given reader.old) (R.given reader.new)
        (R.remaining reader.old) (R.remaining reader.new) (λ text. text.items) result }
{
    let input = read_all(alloc, reader)?;
    let script = parse(alloc, &input)?;
    reply_to(alloc, script, hasher)
}

/// Reads a command text to its end, runs its commands on a new cache, and writes the replies.
///
/// All lines are read before the cache is made, and the text of all replies is made before any of
/// it is written. A failed read, write or flush isn't retried.
///
/// # Errors
///
/// The first of these that applies:
///
/// 1. `Read` if a read fails;
/// 2. `BadLine` if a line isn't a command in its place;
/// 3. `Capacity` if the cache would be too large;
/// 4. `Policy` if its shares don't fit together;
/// 5. `Write` if a write or the flush fails.
///
/// `Memory` is returned if a request for memory is refused: while the input is read, or later if
/// its first two lines are good. After `Write` a prefix of the text may have been written; after
/// the others nothing.
///
/// # Cost
///
/// Memory in proportion to the input, the capacity and the replies. Reading, parsing and writing
/// take time in proportion to the text. The hasher's seed is fixed ([`DefaultHashBuilder`]), so a
/// text can have keys that collide, which makes its calls slow: if strangers write the text, use
/// [`serve_with`].
pub fn serve<R: Source, W: Sink, A: Allocator>(
    alloc: A,
    reader: &mut R,
    writer: &mut W,
) -> Result<(), ServeError>
    // The whole input was read, it is a script, and exactly the text of its replies was written
    // and flushed.
    ensures ok { OnOk result (IsServed
        (R.given reader.old) (R.given reader.new) (R.remaining reader.old) (R.remaining reader.new)
        (W.taken writer.old) (W.taken writer.new) (W.contents writer.old) (W.contents writer.new)) }

    // What each refusal means: for the input before a text was made, and for what was written
    // after.
    ensures err { IfErr result (IsRefused
        (R.given reader.old) (R.given reader.new) (R.remaining reader.old) (R.remaining reader.new)
        (W.taken writer.old) (W.taken writer.new) (W.contents writer.old) (W.contents writer.new)) }

    // A failed device is always reported, and no other is.
    ensures read { IsErrOf result ServeError.Read
        ↔ ((R.given reader.old).failures < (R.given reader.new).failures) }
    ensures write { IsErrOf result ServeError.Write
        ↔ ((W.taken writer.old).failures < (W.taken writer.new).failures) }

    // Nothing is written before any other refusal.
    ensures unwritten { IfErr result
        (λ refusal. (refusal ≢ ServeError.Write) → writer.new ≡ writer.old) }
{
    serve_with(alloc, reader, writer, DefaultHashBuilder::new())
}

/// Does what [`serve`] does, with the caller's hasher: use a `RandomState` if strangers write the
/// text. Replies and refusals don't depend on it.
///
/// # Errors
///
/// Those of [`serve`].
///
/// # Cost
///
/// That of [`serve`].
pub fn serve_with<R: Source, W: Sink, S: BuildHasher + Drop, A: Allocator>(
    alloc: A,
    reader: &mut R,
    writer: &mut W,
    hasher: S,
) -> Result<(), ServeError>
    ensures ok { OnOk result (IsServed
        (R.given reader.old) (R.given reader.new) (R.remaining reader.old) (R.remaining reader.new)
        (W.taken writer.old) (W.taken writer.new) (W.contents writer.old) (W.contents writer.new)) }
    ensures err { IfErr result (IsRefused
        (R.given reader.old) (R.given reader.new) (R.remaining reader.old) (R.remaining reader.new)
        (W.taken writer.old) (W.taken writer.new) (W.contents writer.old) (W.contents writer.new)) }
    ensures read { IsErrOf result ServeError.Read
        ↔ ((R.given reader.old).failures < (R.given reader.new).failures) }
    ensures write { IsErrOf result ServeError.Write
        ↔ ((W.taken writer.old).failures < (W.taken writer.new).failures) }
    ensures unwritten { IfErr result
        (λ refusal. (refusal ≢ ServeError.Write) → writer.new ≡ writer.old) }
{
    let text = answer(&alloc, reader, hasher)?;
    match send(writer, &text) {
        Ok(()) => Ok(()),
        Err(_) => Err(ServeError::Write),
    }
}
