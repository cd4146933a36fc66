mod edge;
mod first_come;
mod labels;
mod numbers;
mod open_times;
mod outside;
mod pairs;
mod planner;
mod problems;
mod records;
mod separations;
mod shown_plans;
mod stages;
mod traffic;
mod windows;
mod workers;

// Compiles only where threads may share and take the type.
fn assert_send_sync<T: Send + Sync>(_: &T) {}
