//! The watch over a history.

ghost use Rattle.std.specs.Prelude.{◌≡◌, ◌<◌, ◌-◌, ◌^◌, [], ◌∷◌, ◌++◌, map, length, option_to_list, vec_len};
ghost use Rattle.std.specs.Prelude.{vec_capacity, IsTrue, IfOk, OnErr, OnOk};
ghost use Rattle.ossl_state.specs.Boxes.{place_of};
ghost use Rattle.ossl_state.specs.Tokens.{names_context};
ghost use Rattle.ossl_watch.specs.Watched.{are_below, birth_of, closed, context_made, fallback_at, fallen};
ghost use Rattle.ossl_watch.specs.Watched.{fallen_armed, fallen_running, going_as, going_by, handed, handed_if, loaded};
ghost use Rattle.ossl_watch.specs.Watched.{noted_by, method_in, spent, starts_told, stops_told, token_at};

use crate::running::{Running, activate, change_uses, going, settle};
use crate::token::{Token, Use, use_ended};
use crate::up::Up;
use ossl_provider::Provider;
use ossl_state::activation::find_box;
use ossl_state::{Call, Entry, Reply};
use std::alloc::{AllocError, Global};
use std::collections::BTreeMap;
use std::marker::Model;

/// What an entry started and stopped.
#[derive(Drop)]
pub struct Change {
    /// An entry starts at most one instance.
    pub started: Option<Up>,
    /// The instances that it stopped, by increasing number.
    pub stopped: Vec<Up>,
}

/// A watch over a history, which it is told entry by entry. It keeps the instances that are up and the tokens
/// that are out.
#[derive(Drop)]
pub struct Watch {
    alloc: Global,
    /// The number of the next entry.
    next: u64,
    /// Which library contexts have their fallback armed.
    armed: Vec<bool>,
    running: Vec<Running>,
    tokens: BTreeMap<u64, Token>,
}

impl Model for Watch {
    ghost use Rattle.ossl_watch.specs.Watched.{Watched};

    ghost Value = { Watched };

    ghost view = { λ w. record {
      next = w.next;
      armed = w.armed.items;
      running = w.running.items;
      tokens = w.tokens.entries;
    } };
}

impl Watch {
    ghost use Rattle.std.specs.Prelude.{List};
    ghost use Rattle.ossl_base.specs.declared.entry.Entry.{Entry as EntryOf};
    ghost use Rattle.ossl_state.specs.History.{Fixed, state_after};
    ghost use Rattle.ossl_watch.specs.Changes.{started_by, stopped_by};
    ghost use Rattle.ossl_watch.specs.Watching.{IsToldNext, IsWatching, MayNote};

    /// A watch over so many library contexts, before any entry.
    pub fn new(alloc: Global, contexts: u64) -> Result<Watch, AllocError>
        ensures watching { IfOk result (λ w. (fixed : Fixed) → fixed.contexts ≡ contexts → IsWatching fixed [] w) }
    {
        let mut armed = Vec::new(alloc);
        armed.resize(contexts as usize, true)?;
        Ok(Watch {
            alloc,
            next: 1,
            armed,
            running: Vec::new(alloc),
            tokens: BTreeMap::new(alloc),
        })
    }

    /// Takes the next entry of a legal history in, and tells what it started and stopped. It is a step over
    /// these boxes, of which only
    /// the names are looked at. Where memory is refused, the watch is as it was.
    pub fn note<P: Provider>(&mut self, boxes: &[P], entry: &Entry) -> Result<Change, AllocError>
        requires told { MayNote (map P.facts boxes.now) self.old entry.now }

        // Whatever history it was told, it was then told the entry too.
        ensures watching { OnOk result ((fixed : Fixed) (entries : List (EntryOf Call Reply)) →
            IsToldNext (map P.facts boxes.now) fixed entries self.old entry.now →
            IsWatching fixed (entries ++ entry.now ∷ []) self.new) }

        // What it tells are the differences between the instances that are up before and after the entry.
        ensures started { IfOk result (λ change. (fixed : Fixed) (entries : List (EntryOf Call Reply)) →
            IsToldNext (map P.facts boxes.now) fixed entries self.old entry.now →
            option_to_list change.started ≡ started_by fixed.facts (state_after fixed entries) entry.now) }
        ensures stopped { IfOk result (λ change. (fixed : Fixed) (entries : List (EntryOf Call Reply)) →
            IsToldNext (map P.facts boxes.now) fixed entries self.old entry.now →
            change.stopped.items ≡ stopped_by fixed.facts (state_after fixed entries) entry.now) }
        ensures err { OnErr result (self.new ≡ self.old) }
    {
        let change = self.change(boxes, &entry.call, &entry.reply)?;
        self.next += 1;
        Ok(change)
    }

    /// What a call and its reply change.
    fn change<P: Provider>(
        &mut self,
        boxes: &[P],
        call: &Call,
        reply: &Reply,
    ) -> Result<Change, AllocError>
        requires lib { IsTrue (names_context (length self.old.armed) call.now) }
        requires below { IsTrue (are_below (2 ^ 63) self.old.running) }
        ensures ok { OnOk result (self.new ≡ noted_by (map P.facts boxes.now) self.old call.now reply.now) }
        ensures started { IfOk result (λ change.
            option_to_list change.started ≡ starts_told (map P.facts boxes.now) self.old call.now reply.now) }
        ensures stopped { IfOk result (λ change.
            change.stopped.items ≡ stops_told (map P.facts boxes.now) self.old call.now reply.now) }
        ensures err { OnErr result (self.new ≡ self.old) }
    {
        let mut change = Change {
            started: None,
            stopped: Vec::new(self.alloc),
        };
        match (call, reply) {
            (Call::Load { lib, name, retain }, Reply::Loaded { .. }) => {
                change.started = self.load(boxes, *lib, name.as_slice(), *retain)?;
            }
            (Call::Unload { token }, Reply::Done) => change.stopped = self.spend(*token)?,
            (Call::Fetch { lib, .. }, Reply::Unsupported) => {
                change.started = self.fall_back(boxes, *lib)?;
            }
            (Call::Fetch { lib, .. }, Reply::Fetched { instance, .. }) => {
                change.started = self.fetch(boxes, *lib, *instance)?;
            }
            (Call::UpRef { handle }, Reply::Made { .. }) => self.hand_out(self.token(*handle))?,
            (Call::Free { handle } | Call::FreeCtx { handle }, Reply::Done) => {
                change.stopped = self.spend(*handle)?;
            }
            (Call::NewCtx { handle, inner, .. }, Reply::Made { .. }) => {
                self.hand_out(self.context(*handle, *inner))?;
            }
            (Call::CloseLib { lib }, Reply::Done) => change.stopped = self.close(*lib)?,
            _ => {}
        }
        Ok(change)
    }

    /// A load.
    fn load<P: Provider>(
        &mut self,
        boxes: &[P],
        lib: u64,
        name: &[u8],
        retain: bool,
    ) -> Result<Option<Up>, AllocError>
        requires lib { lib < length self.old.armed }
        requires below { IsTrue (are_below (2 ^ 63) self.old.running) }
        ensures ok { OnOk result (self.new ≡ loaded self.old lib retain (place_of name.now (map P.facts boxes.now))) }
        ensures started { IfOk result (λ started. option_to_list started
            ≡ birth_of (place_of name.now (map P.facts boxes.now)) self.old.next lib self.old.running) }
        ensures err { OnErr result (self.new ≡ self.old) }
    {
        let Some(place) = find_box(boxes, name) else {
            return Ok(None);
        };
        self.running.reserve(1)?;
        self.tokens
            .insert(self.next, Token::Activation { lib, place })?;
        let started = activate(&mut self.running, self.next, lib, place);
        if !retain {
            self.armed[lib as usize] = false;
        }
        Ok(started)
    }

    /// A fetch that finds nothing.
    fn fall_back<P: Provider>(&mut self, boxes: &[P], lib: u64) -> Result<Option<Up>, AllocError>
        requires lib { lib < length self.old.armed }
        requires below { IsTrue (are_below (2 ^ 63) self.old.running) }
        ensures ok { OnOk result (self.new ≡ fallen (map P.facts boxes.now) self.old lib) }
        ensures started { IfOk result (λ started. option_to_list started
            ≡ birth_of (fallback_at (map P.facts boxes.now) self.old.armed lib) self.old.next lib self.old.running) }
        ensures err { OnErr result (self.new ≡ self.old) }
    {
        self.running.reserve(1)?;
        let place = find_fallback(&self.armed, boxes, lib);
        Ok(fall_back_to(&mut self.armed, &mut self.running, self.next, lib, place))
    }

    /// A fetch that finds a method of this instance.
    fn fetch<P: Provider>(
        &mut self,
        boxes: &[P],
        lib: u64,
        instance: u64,
    ) -> Result<Option<Up>, AllocError>
        requires lib { lib < length self.old.armed }
        requires below { IsTrue (are_below (2 ^ 63) self.old.running) }
        ensures ok { OnOk result (
            self.new ≡ handed (fallen (map P.facts boxes.now) self.old lib) (Token.Method instance)) }
        ensures started { IfOk result (λ started. option_to_list started
            ≡ birth_of (fallback_at (map P.facts boxes.now) self.old.armed lib) self.old.next lib self.old.running) }
        ensures err { OnErr result (self.new ≡ self.old) }
    {
        let token = Token::Method { instance };
        self.running.reserve(1)?;
        self.tokens.insert(self.next, token)?;
        let place = find_fallback(&self.armed, boxes, lib);
        let started = fall_back_to(&mut self.armed, &mut self.running, self.next, lib, place);
        change_uses(&mut self.running, &Use::Held(token));
        Ok(started)
    }

    /// What a token stands for, where it is out.
    fn token(&self, token: u64) -> Option<Token>
        ensures { result ≡ token_at self.now.tokens token }
    {
        self.tokens.get(&token).copied()
    }

    /// The instance of a method.
    fn method(&self, token: u64) -> Option<u64>
        ensures { result ≡ method_in (token_at self.now.tokens token) }
    {
        match self.token(token) {
            Some(Token::Method { instance }) => Some(instance),
            _ => None,
        }
    }

    /// The operation context of a method, with an inner method or without one.
    fn context(&self, handle: u64, inner: Option<u64>) -> Option<Token>
        ensures { result ≡ context_made self.now handle inner }
    {
        let inner = match inner {
            Some(inner) => self.method(inner),
            None => None,
        };
        match self.method(handle) {
            Some(instance) => Some(Token::Context { instance, inner }),
            None => None,
        }
    }

    /// A live element is made.
    fn hand_out(&mut self, token: Option<Token>) -> Result<(), AllocError>
        requires below { IsTrue (are_below (2 ^ 63) self.old.running) }
        ensures ok { OnOk result (self.new ≡ handed_if self.old token) }
        ensures err { OnErr result (self.new ≡ self.old) }
    {
        if let Some(token) = token {
            self.tokens.insert(self.next, token)?;
            change_uses(&mut self.running, &Use::Held(token));
        }
        Ok(())
    }

    /// A token is given back, and what it stood for goes.
    fn spend(&mut self, token: u64) -> Result<Vec<Up>, AllocError>
        requires below { IsTrue (are_below (2 ^ 63) self.old.running) }
        ensures ok { OnOk result (self.new ≡ spent self.old token) }
        ensures stopped { IfOk result (λ stopped. stopped.items ≡ going_as self.old (token_at self.old.tokens token)) }
        ensures err { OnErr result (self.new ≡ self.old) }
    {
        let Some(stood_for) = self.token(token) else {
            return Ok(Vec::new(self.alloc));
        };
        let change = use_ended(&stood_for);
        let stopped = going(self.alloc, &self.running, &change)?;
        settle(&mut self.running, &change);
        self.tokens.remove(&token);
        Ok(stopped)
    }

    /// A library context closes.
    fn close(&mut self, lib: u64) -> Result<Vec<Up>, AllocError>
        requires below { IsTrue (are_below (2 ^ 63) self.old.running) }
        ensures ok { OnOk result (self.new ≡ closed self.old lib) }
        ensures stopped { IfOk result (λ stopped. stopped.items ≡ going_by (Use.Closed lib) self.old.running) }
        ensures err { OnErr result (self.new ≡ self.old) }
    {
        let change = Use::Closed { lib };
        let stopped = going(self.alloc, &self.running, &change)?;
        settle(&mut self.running, &change);
        Ok(stopped)
    }
}

/// The box that a fetch falls back to.
fn find_fallback<P: Provider>(armed: &[bool], boxes: &[P], lib: u64) -> Option<usize>
    requires { lib < length armed.now }
    ensures { result ≡ fallback_at (map P.facts boxes.now) armed.now lib }
{
    if armed[lib as usize] {
        find_box(boxes, b"default")
    } else {
        None
    }
}

/// A fetch falls back to a box, or to none.
fn fall_back_to(
    armed: &mut Vec<bool>,
    running: &mut Vec<Running>,
    number: u64,
    lib: u64,
    place: Option<usize>,
) -> Option<Up>
    requires there { lib < vec_len armed.old }
    requires room { vec_len running.old < vec_capacity running.old }
    requires below { IsTrue (are_below (2 ^ 63) running.old.items) }
    ensures armed { armed.new.items ≡ fallen_armed place lib armed.old.items }
    ensures running { running.new.items ≡ fallen_running place number lib running.old.items }
    ensures started { option_to_list result ≡ birth_of place number lib running.old.items }
    ensures below { IsTrue (are_below (2 ^ 64 - 1) running.new.items) }
{
    let place = place?;
    armed[lib as usize] = false;
    activate(running, number, lib, place)
}
