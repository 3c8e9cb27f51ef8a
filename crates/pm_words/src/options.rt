//! The options of a command, as `clap` is told of them and finds them.

ghost use Rattle.std.specs.Prelude.{◌≡◌, ◌++◌, ◌∷◌, [], ℕ, List, IfOk, IfSome, IfNone, map, true, false};
ghost use Rattle.std.specs.List.{list_all};
ghost use Rattle.clap.specs.Words.{app_of};
ghost use Rattle.pm_words.specs.Clap.{Declared, HasDeclared, Reads, app_for, flag, may_stand, value};

use clap::error::ErrorKind;
use clap::{Arg, ArgAction, ArgMatches, Command};
use pm_values::Txt;
use std::alloc::{AllocError, Global};

/// A command without options, of which help says this: its words follow no program's name, and none asks for help.
pub(crate) fn without_options<'a>(alloc: Global, name: &'a str, about: &'a str) -> Command<'a>
    ensures { app_of result ≡ app_for name.entry.now [] }
{
    Command::new(alloc, name)
        .no_binary_name(true)
        .disable_help_flag(true)
        .about(about)
}

/// The command with one more option, which has a value that help calls so, and of which it says this.
pub(crate) fn with_value<'a>(
    alloc: Global,
    command: Command<'a>,
    name: &'a str,
    shown: &'a str,
    help: &'a str,
) -> Result<Command<'a>, AllocError>
    ensures { (word : List ℕ) (declared : List Declared) → app_of command.entry ≡ app_for word declared
        → IfOk result (λ new. app_of new ≡ app_for word (declared ++ value name.entry.now ∷ [])) }
{
    let option = Arg::new(alloc, name)
        .long(name)
        .action(ArgAction::Set)
        .value_name(shown)
        .help(help);
    command.arg(option)
}

/// The command with one more flag, of which help says this.
pub(crate) fn with_flag<'a>(
    alloc: Global,
    command: Command<'a>,
    name: &'a str,
    help: &'a str,
) -> Result<Command<'a>, AllocError>
    ensures { (word : List ℕ) (declared : List Declared) → app_of command.entry ≡ app_for word declared
        → IfOk result (λ new. app_of new ≡ app_for word (declared ++ flag name.entry.now ∷ [])) }
{
    let option = Arg::new(alloc, name)
        .long(name)
        .action(ArgAction::SetTrue)
        .help(help);
    command.arg(option)
}

/// The words as texts, where each may stand among options: `clap` would take `--` as the end of options, and a lone
/// `-` as the value of the one before it.
pub(crate) fn texts_in<'a>(
    alloc: Global,
    words: &'a [Txt],
) -> Result<Option<Vec<&'a str>>, AllocError>
    ensures some { IfOk result (λ found. IfSome found (λ texts. map (λ text. text.now) texts.items ≡ words.entry.now)) }
    ensures stand { IfOk result (λ found. IfSome found (λ texts. list_all may_stand words.entry.now ≡ true)) }
    ensures none { IfOk result (λ found. IfNone found (list_all may_stand words.entry.now ≡ false)) }
{
    let mut texts = Vec::new(alloc);
    for word in words {
        if !may_stand(word.as_str()) {
            return Ok(None);
        }
        texts.push(word.as_str())?;
    }
    Ok(Some(texts))
}

/// Whether a word may stand among options.
fn may_stand(word: &str) -> bool
    ensures { result ≡ may_stand word.now }
{
    match word.as_bytes() {
        [b'-'] | [b'-', b'-'] => false,
        [b'-', second, ..] => *second == b'-',
        _ => true,
    }
}

/// What `clap` finds of a command's options in words that may stand among them, or nothing where they are no options
/// of the command.
pub(crate) fn matches_in<'a>(
    command: Command<'a>,
    words: &'a [&'a str],
) -> Result<Option<ArgMatches<'a>>, AllocError>
    requires { list_all may_stand (map (λ word. word.now) words.now) ≡ true }
    ensures { (declared : List Declared) → HasDeclared (app_of command.entry) declared
        → IfOk result (Reads declared (map (λ word. word.now) words.entry.now)) }
{
    match command.try_get_matches_from(words) {
        Ok(matches) => Ok(Some(matches)),
        Err(error) => match error.kind() {
            ErrorKind::OutOfMemory => Err(AllocError),
            _ => Ok(None),
        },
    }
}
