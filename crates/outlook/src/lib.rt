// What is announced of a timer's next event: claims over lists of calls, and no function.

#![tactic(auto)]
