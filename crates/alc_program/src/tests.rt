mod devices;
mod limits;
mod read_back;
mod reports;
mod samples;
mod scripts;
mod threads;
