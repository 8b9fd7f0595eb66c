// What is claimed of the board over lists of orders, and readings: claims and no function.

#![tactic(auto)]
