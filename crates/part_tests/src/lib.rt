//! Tests of parts of the tab: what no clause says of them. There is no other code.
#![tactic(auto)]

#[cfg(test)]
mod address_tests;
#[cfg(test)]
mod handler_table_tests;
#[cfg(test)]
mod load_table_tests;
#[cfg(test)]
mod log_model_tests;
#[cfg(test)]
mod move_queue_tests;
#[cfg(test)]
mod nav_tree_tests;
#[cfg(test)]
mod navigate_core_tests;
#[cfg(test)]
mod page_cache_tests;
#[cfg(test)]
mod proc_work_tests;
#[cfg(test)]
mod running_table_tests;
#[cfg(test)]
mod scenario_make_tests;
#[cfg(test)]
mod tab_io_tests;
#[cfg(test)]
mod turn_table_tests;
#[cfg(test)]
mod unload_check_tests;

/// Holds the crate's place: all else is read for the tests alone.
pub fn nothing() {}
