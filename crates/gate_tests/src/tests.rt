mod day;
mod given;
mod kept_stages;
mod opened_files;
mod picture;
mod refused_memory;
mod trials;
mod wide_stages;
