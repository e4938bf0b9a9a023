//! Waves of jobs by workers: a board from which threads draw the numbers of jobs, and a call that has each job done once and
//! gives the same answers for any number of workers.
#![tactic(auto)]

mod board;
mod both;
mod crew;
mod laws;
mod place;
mod rule;
mod step;
mod view;
mod wave;

pub use board::{Board, Pass, Ticket};
pub use crew::all_done;
pub use laws::{
    each_job_counts_once, each_job_once, each_number_in_one_view, each_number_once,
    one_list_of_answers, schedules_are_dealt,
};
pub use step::Step;
pub use wave::run_wave;
