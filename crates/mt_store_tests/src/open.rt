mod damage;
mod lines;
mod opening;
mod reading;
