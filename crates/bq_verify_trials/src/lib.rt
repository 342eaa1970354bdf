//! Only tests, of the verifier and what stands round it: ranges, maps, what is said of a program, programs that it has to follow
//! closely, each beside one that it must refuse; images, read, loaded or refused; and what programs answer. The library itself
//! is empty.
#![tactic(auto)]

#[cfg(test)]
mod alike;
#[cfg(test)]
mod asserting;
#[cfg(test)]
mod copies;
#[cfg(test)]
mod hostile;
#[cfg(test)]
mod images;
#[cfg(test)]
mod judging;
#[cfg(test)]
mod maps;
#[cfg(test)]
mod parts;
#[cfg(test)]
mod preempt_programs;
#[cfg(test)]
mod ranges;
#[cfg(test)]
mod readers;
#[cfg(test)]
mod relations;
#[cfg(test)]
mod runs;
#[cfg(test)]
mod verdicts;
#[cfg(test)]
mod whole_programs;
