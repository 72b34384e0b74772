//! The laws as calls: of the walk, and of volumes that change. Volumes that are read stand in the tests of mounting, and
//! those that change in the scripts of the program.
use volume_model::editing::cut_zones_are_told;
use volume_model::{
    calls_are_told_as_one, changed_node_stands, cut_file_stands, mapped_block_stands,
    names_come_and_go, new_volumes_are_plain, nodes_come_and_go, nodes_stay,
    plain_images_can_change, plain_volumes_are_read_back, writes_are_read,
};
use volume_ops::{
    faults_are_first_defects, file_blocks_have_zones, metadata_gives_trees,
    same_metadata_gives_alike_trees, trees_are_rooted, trees_have_fields, volumes_have_one_tree,
    walks_end_well_without_fault, walks_read_metadata_alone,
};

#[test]
fn knows_the_laws_of_the_walk() {
    walks_read_metadata_alone();
    trees_have_fields();
    trees_are_rooted();
    same_metadata_gives_alike_trees();
    walks_end_well_without_fault();
    faults_are_first_defects();
    volumes_have_one_tree();
    file_blocks_have_zones();
    metadata_gives_trees();
}

#[test]
fn knows_the_laws_of_changes() {
    nodes_stay();
    writes_are_read();
    nodes_come_and_go();
    changed_node_stands();
    names_come_and_go();
    mapped_block_stands();
    cut_file_stands();
    calls_are_told_as_one();
    new_volumes_are_plain();
    plain_images_can_change();
    plain_volumes_are_read_back();
    cut_zones_are_told();
}
