// The bench timer's calls, what each does, and what is claimed of them. `dispatch` answers them.

#![tactic(auto)]

pub mod calls;
