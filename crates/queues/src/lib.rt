//! The tree of queues and the counters as an abstract machine: its invariant, exclusion, and the way back to idle.
//! It has no code: the machine stands in specs/, what holds of it in proofs/.
#![tactic(auto)]
