//! The frames that the node owes.
ghost use Rattle.std.specs.Prelude.{◌≡◌, IfOk};
ghost use Rattle.guards_nodes.specs.NodeSteps.{Received, StandsFor};
ghost use Rattle.guards_nodes.specs.NodeFrames.{framed, request_of, relay_of, vote_of_outputs, sweep_of, final_of, switch_of};
ghost use Rattle.icn_frames.specs.Bodies.{view_body};

use crate::node::{Node, State};
use guards_base::Chan;
use icn_frames::{Body, Frame};
use mission_type::Mission;
use std::alloc::{AllocError, Global};

impl Node {
    // The frame of a body.
    fn frame(&self, cycle: u32, body: Body) -> Frame
        ensures { result ≡ record {
          version = self.now.rules.version;
          sender = self.now.channel;
          cycle = cycle;
          body = view_body body;
        } }
    {
        Frame {
            version: self.rules.version,
            sender: self.channel,
            cycle,
            body,
        }
    }

    /// Its request, where it joins.
    pub fn request(&self, cycle: u32) -> Option<Frame>
        ensures { result ≡ framed self.now cycle (request_of self.now.state) }
    {
        match &self.state {
            State::Joining(joining) => {
                Some(self.frame(cycle, Body::Request(joining.replica().have())))
            }
            State::Up(_) | State::Down | State::Waiting => None,
        }
    }

    /// What it tells in a round that there is, where it runs.
    pub fn relay(&self, alloc: Global, cycle: u32, round: u8) -> Result<Option<Frame>, AllocError>
        ensures { (received : Received) → StandsFor self.now.state received →
            IfOk result (λ frame. frame ≡ framed self.now cycle (relay_of received round self.now.state)) }
    {
        match &self.state {
            State::Up(running) => match running.exchange(alloc, round)? {
                Some(exchange) => Ok(Some(self.frame(cycle, Body::Exchange(exchange)))),
                None => Ok(None),
            },
            State::Down | State::Waiting | State::Joining(_) => Ok(None),
        }
    }

    /// Its output words, where it runs.
    pub fn vote_frame(&self, mission: &Mission, cycle: u32) -> Option<Frame>
        requires { mission.now.rules ≡ self.now.rules }
        ensures { result ≡ framed self.now cycle (vote_of_outputs mission.now.outputs self.now.state) }
    {
        match &self.state {
            State::Up(running) => Some(self.frame(cycle, Body::Vote(running.ballot(mission)))),
            State::Down | State::Waiting | State::Joining(_) => None,
        }
    }

    /// Its copies of the cycle, to a target of the transfer that runs, where it runs.
    pub fn sweep_frame(
        &self,
        alloc: Global,
        cycle: u32,
        target: Chan,
    ) -> Result<Option<Frame>, AllocError>
        ensures { IfOk result (λ frame. frame ≡ framed self.now cycle (sweep_of target self.now.state)) }
    {
        match &self.state {
            State::Up(running) => match running.sweep(alloc, target)? {
                Some(sweep) => Ok(Some(self.frame(cycle, Body::Sweep(sweep)))),
                None => Ok(None),
            },
            State::Down | State::Waiting | State::Joining(_) => Ok(None),
        }
    }

    /// The blocks that remained and the control of the next cycle, to a channel that the closed cycle declared joined,
    /// where it runs.
    pub fn final_frame(
        &self,
        alloc: Global,
        cycle: u32,
        target: Chan,
    ) -> Result<Option<Frame>, AllocError>
        ensures { IfOk result (λ frame. frame ≡ framed self.now cycle (final_of self.now.rules target self.now.state)) }
    {
        match &self.state {
            State::Up(running) => match running.last(alloc, &self.rules, target)? {
                Some(last) => Ok(Some(self.frame(cycle, Body::Final(last)))),
                None => Ok(None),
            },
            State::Down | State::Waiting | State::Joining(_) => Ok(None),
        }
    }

    /// The active set of the next cycle, where it runs.
    pub fn switch_frame(&self, cycle: u32) -> Option<Frame>
        ensures { result ≡ framed self.now cycle (switch_of self.now.state) }
    {
        match &self.state {
            State::Up(running) => Some(self.frame(cycle, Body::Switch(running.control().active))),
            State::Down | State::Waiting | State::Joining(_) => None,
        }
    }
}
