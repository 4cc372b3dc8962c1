//! Whether a text is a pattern: the machine of `reading`, without what it has read.
ghost use Rattle.std.specs.Prelude.{◌≡◌, [], Some, MatchOption};
ghost use Rattle.std.specs.Option.{option_map};
ghost use Rattle.std.specs.Result.{is_ok};
ghost use Rattle.tm_pattern.specs.Checking.{IsCut, at_stage, bare, control, loose};
ghost use Rattle.tm_pattern.specs.Reading.{begins_with_slash, closes, ended_at, pattern_of, stepped};

use crate::reading::{Stage, is_same};
use crate::token::{Token, token_at};
use tm_word::Repeat;

/// What of a component has been read, and how many components of a name it stands for.
#[derive(Clone, Copy)]
struct Standing {
    stage: Stage,
    repeat: Repeat,
}

/// The first token of a text, and the bytes after it.
fn cut_token(text: &[u8]) -> Option<(Token, &[u8])>
    ensures { MatchOption result (loose text.now ≡ [])
        (λ cut. IsCut text.now cut.0 cut.1.now) }
{
    match text {
        [] => None,
        [first, others @ ..] => {
            let sized = token_at(*first, others);
            let taken = sized.more.min(others.len());
            Some((sized.token, &others[taken..]))
        }
    }
}

/// Whether a closing of this kind stands before the next slash of a text.
fn closes(kind: Repeat, text: &[u8]) -> bool
    ensures { result ≡ closes kind (loose text.now) }
{
    let mut left = text;
    while let Some((token, rest)) = cut_token(left) {
        match token {
            Token::Slash => return false,
            Token::Close(other) => {
                if is_same(kind, other) {
                    return true;
                }
            }
            _ => {}
        }
        left = rest;
    }
    false
}

/// Whether the first token of a text is a slash.
fn begins_with_slash(text: &[u8]) -> bool
    ensures { result ≡ begins_with_slash (loose text.now) }
{
    match cut_token(text) {
        Some((token, _)) => matches!(token, Token::Slash),
        None => false,
    }
}

/// Where a token leads, before this text; none where it can't stand there.
fn led(at: Standing, token: Token, rest: &[u8]) -> Option<Standing>
    ensures { option_map at_stage result
        ≡ control (stepped (bare at.stage at.repeat) at.stage token 0 (loose rest.now)) }
{
    match (at.stage, token) {
        (_, Token::Bad) => None,
        (Stage::Closed, Token::Slash) => stands(Stage::After, Repeat::Once),
        (Stage::Closed, _) => None,
        (_, Token::Element(_)) => stands(Stage::Has, at.repeat),
        (Stage::After, Token::Open(kind)) => {
            if closes(kind, rest) {
                stands(Stage::Needs, kind)
            } else {
                None
            }
        }
        (_, Token::Open(_)) => None,
        (Stage::Has, Token::Close(kind)) => {
            if is_same(at.repeat, kind) && begins_with_slash(rest) {
                stands(Stage::Closed, at.repeat)
            } else {
                None
            }
        }
        (_, Token::Close(_)) => None,
        (Stage::Has, Token::Minus) => stands(Stage::Needs, at.repeat),
        (_, Token::Minus) => None,
        (Stage::Needs, Token::Slash) => None,
        (_, Token::Slash) => {
            if is_same(at.repeat, Repeat::Once) {
                stands(Stage::After, Repeat::Once)
            } else {
                None
            }
        }
    }
}

fn stands(stage: Stage, repeat: Repeat) -> Option<Standing>
    ensures { option_map at_stage result ≡ Some (stage, repeat) }
{
    Some(Standing { stage, repeat })
}

/// Whether a text may end here.
fn may_end(at: Standing) -> bool
    ensures { result ≡ is_ok (ended_at (bare at.stage at.repeat) at.stage 0) }
{
    match at.stage {
        Stage::Needs | Stage::Closed => false,
        Stage::Start | Stage::After | Stage::Has => is_same(at.repeat, Repeat::Once),
    }
}

/// Whether a text is a pattern, as `read_pattern` reads it. Takes no memory.
pub fn is_pattern(text: &[u8]) -> bool
    ensures { result ≡ is_ok (pattern_of text.now) }
{
    let mut at = Standing {
        stage: Stage::Start,
        repeat: Repeat::Once,
    };
    let mut left = text;
    while let Some((token, rest)) = cut_token(left) {
        let Some(next) = led(at, token, rest) else {
            return false;
        };
        at = next;
        left = rest;
    }
    may_end(at)
}
