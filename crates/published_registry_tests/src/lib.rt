//! Tests of `published_registry`: with threads, of a commit in two calls, and of each call where there is memory.
#![tactic(auto)]

#[cfg(test)]
mod ample_memory;
#[cfg(test)]
mod begun_is_not_shown;
#[cfg(test)]
mod learnt_receipts;
#[cfg(test)]
mod looking;
#[cfg(test)]
mod moments;
#[cfg(test)]
mod naming;
#[cfg(test)]
mod opening;
