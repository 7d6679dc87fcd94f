// What a plan describes, in memory that is obtained once.
ghost use Rattle.std.specs.Prelude.{◌≡◌, ℕ, ◌<◌, ◌≤◌, vec_len, vec_capacity};
ghost use Rattle.description.specs.Limits.{cell_count};
ghost use Rattle.reader.specs.Known.{KnownActivity, KnownEdge, activity_of, edge_of};

use crate::application::Application;
use description::{Activity, Edge, Resource};

#[derive(Drop)]
pub struct Description {
    pub label: u32,
    pub resources: Vec<Resource>,
    pub applications: Vec<Application>,
    pub activities: Vec<Activity>,
    pub edges: Vec<Edge>,
    // how many cells the activities have
    // Kept: a public field; without it each activity that is read would sum the turns of all before it.
    pub cells: usize,
    ghost room: { (32 ≤ vec_capacity resources) × (64 ≤ vec_capacity applications) × (512 ≤ vec_capacity activities) × (1024 ≤ vec_capacity edges) },
    ghost few: { (vec_len resources ≤ 32) × (vec_len applications ≤ 64) × (vec_len activities ≤ 512) × (vec_len edges ≤ 1024) },
    ghost counted: { cells ≡ cell_count activities.items },
    ghost cells_few: { cells ≤ 2048 },
    ghost activities_known: { (i : ℕ) → i < vec_len activities → KnownActivity (vec_len applications) (vec_len resources) (activity_of activities.items i) },
    ghost edges_known: { (i : ℕ) → i < vec_len edges → KnownEdge (vec_len activities) (edge_of edges.items i) },
}
