//! One caller at work: from its lines and the replies to its calls it tells its next call, and in the end its results.

ghost use Rattle.std.specs.Prelude.{◌≡◌, true, false, IfOk, OnErr, OnOk};
ghost use Rattle.ossl_commands.specs.Counts.{lines_of};
ghost use Rattle.ossl_script.specs.View.{Gives, GoesOn, SpeaksFor, answered, fresh, next_of, printed_of, stopped, told};
ghost use Rattle.ossl_script.specs.Laws.{CallsAreAllowed, CallsAreOwned, CallsNameContexts, OwnLinesAlone};
ghost use Rattle.ossl_script.specs.Laws.{GivingBackIsAllowed, GivingBackIsOwned, GivingBackLeavesNone, HeldIsOwned};
ghost use Rattle.ossl_script.specs.Laws.{GoesByReply, ResultsNameNoToken};

use crate::caller::{LineResult, Next};
use crate::progress::{Progress, go_on_with_room, take_in};
use crate::share::own_contents;
use crate::tokens::{Place, take_newest};
use ossl_base::text::Bytes;
use ossl_commands::{OwnLines, Script};
use ossl_state::{Call, Reply};
use std::alloc::{AllocError, Global};
use std::collections::BTreeMap;
use std::marker::Model;

/// A caller of a batch at work. It shares the lines of the batch, and owns copies of what the files hold.
///
/// It asks for a call by `next_call`, takes the reply to it by `take_reply`, and so on to the end of its lines.
/// Wherever it stops, by a refusal of memory too, `give_back` gives back the tokens that it holds.
#[derive(Drop)]
pub struct ScriptCaller {
    alloc: Global,
    caller: u64,
    lines: OwnLines,
    contents: Vec<Bytes>,
    replies: Vec<Reply>,
    places: Vec<Place>,
    progress: Progress,
    asked: Option<Call>,
    ended: bool,
    refused: bool,
}

impl Model for ScriptCaller {
    ghost use Rattle.ossl_script.specs.View.{ScriptCallerView};

    ghost Value = { ScriptCallerView };

    ghost use Rattle.ossl_script.specs.Work.{Works, view_of};

    ghost view = { view_of };

    ghost invariant = { Works };
}

impl ScriptCaller {
    /// The caller of this number, before its first line. `contents` is what the files of the script hold, in its order.
    pub fn new(
        alloc: Global,
        script: &Script,
        contents: &[Bytes],
        caller: u64,
    ) -> Result<ScriptCaller, AllocError>
        ensures lines { IfOk result (λ s. s.lines ≡ lines_of caller script.now.commands) }
        ensures fresh { IfOk result (λ s. s ≡ fresh s.lines s.contents caller) }
        ensures batch { IfOk result (SpeaksFor script.now.commands contents.now) }
        ensures alone { OwnLinesAlone }
    {
        let lines = script.own_lines(alloc, caller)?;
        let contents = own_contents(alloc, contents)?;
        Ok(ScriptCaller {
            alloc,
            caller,
            lines,
            contents,
            replies: Vec::new(alloc),
            places: Vec::new(alloc),
            progress: Progress {
                told: Vec::new(alloc),
                names: BTreeMap::new(alloc),
                stage: None,
                line: 0,
            },
            asked: None,
            ended: false,
            refused: false,
        })
    }

    /// The next call with the number of its line, or the end of the lines: does the work up to there. Room for the
    /// reply, its token and that token's return is made before. Where memory is refused, the work is over but for
    /// `give_back`.
    ///
    /// In a legal history the caller may make each call that comes next: it owns the tokens that the call names, and
    /// the library context is one that the batch names.
    #[tactic(auto, using(crate::proofs::OwnedLaws::calls_are_owned, crate::proofs::ContextLaws::calls_name_contexts, crate::proofs::AllowedLaws::calls_are_allowed))]
    pub fn next_call(&mut self) -> Result<Next, AllocError>
        requires { GoesOn self.old false }
        ensures call { IfOk result (λ next. next ≡ next_of self.old) }
        ensures told { IfOk result (λ next. self.new ≡ told next self.old) }
        ensures refused { OnErr result (self.new ≡ stopped self.old) }
        ensures owned { CallsAreOwned }
        ensures within { CallsNameContexts }
        ensures allowed { CallsAreAllowed }
    {
        if self.ended {
            return Ok(Next::End);
        }
        let contents = self.contents.as_slice();
        let next = go_on_with_room(
            self.alloc,
            &mut self.progress,
            contents,
            &self.lines,
            &mut self.replies,
            &mut self.places,
            &mut self.asked,
        );
        match &next {
            Ok(next) => self.ended = next.is_end(),
            Err(_) => self.refused = true,
        }
        next
    }

    /// Takes the reply to the last call. Where memory is refused, the reply is taken and its token held all the same,
    /// and the work is over but for `give_back`.
    ///
    /// A caller goes by its replies one after the other, and keeps exactly the tokens that it owns by its calls and
    /// their replies.
    #[tactic(auto, using(crate::proofs::HeldLaws::goes_by_reply, crate::proofs::HeldLaws::held_is_owned))]
    pub fn take_reply(&mut self, reply: Reply) -> Result<(), AllocError>
        requires { GoesOn self.old true }
        ensures taken { OnOk result (self.new ≡ answered reply self.old) }
        ensures refused { OnErr result (self.new ≡ stopped (answered reply self.old)) }
        ensures by_reply { GoesByReply }
        ensures held { HeldIsOwned }
    {
        take_in(&mut self.asked, &mut self.places, &mut self.replies, reply);
        Ok(())
    }

    /// The call that gives back the newest token still held, which is then spent; or nothing, where none is left. It
    /// may be called at any moment, and takes no memory.
    ///
    /// The caller may make each of these calls, and after the last it owns no token.
    #[tactic(auto, using(crate::proofs::OwnedLaws::giving_back_is_owned, crate::proofs::AllowedLaws::giving_back_is_allowed, crate::proofs::HeldLaws::giving_back_leaves_none))]
    pub fn give_back(&mut self) -> Option<Call>
        ensures call { Gives self.old result self.new }
        ensures owned { GivingBackIsOwned }
        ensures allowed { GivingBackIsAllowed }
        ensures leaves_none { GivingBackLeavesNone }
    {
        Some(take_newest(&mut self.places)?.give_back())
    }

    /// What is printed of each line, in order, without memory.
    ///
    /// Results name no token: with other numbers of tokens and instances in the replies, all results are the same.
    #[tactic(auto, using(crate::proofs::RenamingLaws::results_name_no_token))]
    pub fn results(self) -> Vec<LineResult>
        requires { self.ended ≡ true }
        ensures results { result.items ≡ printed_of self }
        ensures numberless { ResultsNameNoToken }
    {
        let ScriptCaller { progress, .. } = self;
        progress.told
    }
}
