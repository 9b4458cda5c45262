//! Whose turn it is in a run.

ghost use Rattle.std.specs.Prelude.{◌≡◌, Some};
ghost use Rattle.std.specs.List.{filter_map};
ghost use Rattle.ossl_ordered.specs.Turns.{least, lesser};
ghost use Rattle.ossl_ordered.specs.Work.{turn_in};

use crate::player::Player;

/// A caller that has a call left: its number in the batch, and the number of the line of its next call.
#[derive(Clone, Copy, Debug, PartialEq, Eq)]
pub struct Turn {
    pub caller: u64,
    pub line: u64,
}

/// Of the callers that have a call left, the one whose next call has the least line; none where there are none.
pub fn least_turn(players: &[Player]) -> Option<Turn>
    ensures turn { result ≡ least (filter_map turn_in players.now) }
{
    let mut first = None;
    for player in players {
        match player.turn() {
            Some(turn) => first = Some(lesser(first, turn)),
            None => {}
        }
    }
    first
}

/// Of two turns the one of the lesser line.
fn lesser(first: Option<Turn>, turn: Turn) -> Turn
    ensures { Some result ≡ lesser first turn }
{
    match first {
        Some(first) if first.line <= turn.line => first,
        _ => turn,
    }
}
