//! Tests of the locked machine, by one thread and by many: the rows of one seat, one history of several, calls that are held,
//! loads at once, counters, and long races that are replayed event by event. All of it is for the tests; the library itself is
//! empty. No growth is refused here while threads run, since no test of the kit can refuse one: that a call whose growth is
//! refused records nothing is proved.
#![tactic(auto)]

#[cfg(test)]
mod account_tests;
#[cfg(test)]
mod asserting;
#[cfg(test)]
mod counter_tests;
#[cfg(test)]
mod counting_clock;
#[cfg(test)]
mod drawn;
#[cfg(test)]
mod gate;
#[cfg(test)]
mod held_queue;
#[cfg(test)]
mod history_tests;
#[cfg(test)]
mod hold_tests;
#[cfg(test)]
mod images;
#[cfg(test)]
mod load_tests;
#[cfg(test)]
mod one_seat_tests;
#[cfg(test)]
mod play;
#[cfg(test)]
mod player;
#[cfg(test)]
mod race_tests;
#[cfg(test)]
mod replayed;
#[cfg(test)]
mod requests;
#[cfg(test)]
mod script;
