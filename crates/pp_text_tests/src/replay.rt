// Schedules of several peers, and rehearsals.
mod rehearsals;
mod schedules;
