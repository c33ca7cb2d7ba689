mod apply;
mod build;
mod calls;
mod depot;
mod reads;
mod seals;
