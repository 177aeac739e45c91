//! What the devices hold, apart from their status, their queues and any bus: definitions alone, which both halves share.
#![tactic(auto)]
