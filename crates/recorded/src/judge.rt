// Judges a record: whether the answers in it are those that the library computes.
use super::lines::Record;
use bdz_base::mix::{mix64, splitmix64};
use bdz_base::pack::{pack_g, unpack_g_at};
use bdz_base::size::{
    compact_vertex_count, g_bits_for_modulus, occ_packed_bytes, packed_g_bytes, super_count,
    vertex_count,
};
use bdz_base::verts::{Verts, hash3, hash3_partite};
use bdz_base::width::Width;

// Whether a record's answers are the computed ones.
pub(crate) fn agrees(record: &Record) -> bool {
    let numbers = record.numbers();
    match record.letter {
        b's' => step_agrees(numbers),
        b'm' => mixed_agrees(numbers),
        b'a' => assigned_agrees(numbers),
        b'c' => compact_agrees(numbers),
        b'w' => width_agrees(numbers),
        b'v' => vertices_agree(numbers),
        b'b' => size_agrees(numbers),
        b'o' => occupancy_agrees(numbers),
        b'p' => packing_agrees(numbers),
        _ => false,
    }
}

// The letter s: a state, the state after it, and the seed.
fn step_agrees(numbers: &[u64]) -> bool {
    let &[state, after, seed] = numbers else {
        return false;
    };
    let step = splitmix64(state);
    step.state == after && step.seed == seed
}

// The letter m: a word, and the mixed one.
fn mixed_agrees(numbers: &[u64]) -> bool {
    let &[word, mixed] = numbers else {
        return false;
    };
    mix64(word) == mixed
}

// Whether these are the three vertices.
fn same_vertices(vertices: Verts, a: u64, b: u64, c: u64) -> bool {
    u64::from(vertices.a) == a && u64::from(vertices.b) == b && u64::from(vertices.c) == c
}

// The letter a: a key, a seed, how many vertices there are, and the key's three by the assigned rule.
fn assigned_agrees(numbers: &[u64]) -> bool {
    let &[key, seed, vertices, a, b, c] = numbers else {
        return false;
    };
    match u32::try_from(vertices) {
        Ok(m) => same_vertices(hash3(key, seed, m), a, b, c),
        Err(_) => false,
    }
}

// The letter c: the same by the compact rule.
fn compact_agrees(numbers: &[u64]) -> bool {
    let &[key, seed, vertices, a, b, c] = numbers else {
        return false;
    };
    match u32::try_from(vertices) {
        Ok(m) => same_vertices(hash3_partite(key, seed, m), a, b, c),
        Err(_) => false,
    }
}

// The letter w: a modulus, and the width of a word below it.
fn width_agrees(numbers: &[u64]) -> bool {
    let &[modulus, width] = numbers else {
        return false;
    };
    match u32::try_from(modulus) {
        Ok(modulus) => u64::from(g_bits_for_modulus(modulus)) == width,
        Err(_) => false,
    }
}

// The letter v: how many keys, and how many vertices by the assigned and by the compact rule.
fn vertices_agree(numbers: &[u64]) -> bool {
    let &[keys, assigned, compact] = numbers else {
        return false;
    };
    match u32::try_from(keys) {
        Ok(n) => vertex_count(n) == assigned && compact_vertex_count(n) == compact,
        Err(_) => false,
    }
}

// The letter b: how many words, their width, and the bytes of their table.
fn size_agrees(numbers: &[u64]) -> bool {
    let &[words, width, bytes] = numbers else {
        return false;
    };
    match (u32::try_from(words), u32::try_from(width)) {
        (Ok(words), Ok(width)) => packed_g_bytes(words, width) == bytes,
        _ => false,
    }
}

// The letter o: how many vertices, and the bytes and the super counts of their occupancy.
fn occupancy_agrees(numbers: &[u64]) -> bool {
    let &[vertices, bytes, supers] = numbers else {
        return false;
    };
    match u32::try_from(vertices) {
        Ok(m) => occ_packed_bytes(m) == bytes && super_count(m) == supers,
        Err(_) => false,
    }
}

// The letter p: a width, how many words and how many bytes, the words, and the bytes that they are packed into.
fn packing_agrees(numbers: &[u64]) -> bool {
    let &[width, words, bytes, ref rest @ ..] = numbers else {
        return false;
    };
    if 97 < words || 97 < bytes || words + bytes != rest.len() as u64 {
        return false;
    }
    let (words, bytes) = rest.split_at(words as usize);
    match width_of(width) {
        Some(width) => table_agrees(words, width, bytes),
        None => false,
    }
}

// The number as a width, where it is one.
fn width_of(number: u64) -> Option<Width> {
    Width::new(u32::try_from(number).ok()?).ok()
}

// The numbers as words of 32 bits, where each of them is one.
fn words_of(numbers: &[u64]) -> Option<[u32; 100]> {
    let mut words = [0u32; 100];
    for (word, &number) in words.iter_mut().zip(numbers) {
        *word = u32::try_from(number).ok()?;
    }
    Some(words)
}

// Whether the words are packed into the bytes, and read back.
fn table_agrees(numbers: &[u64], width: Width, bytes: &[u64]) -> bool {
    let Some(list) = words_of(numbers) else {
        return false;
    };
    let mut room = [0u8; 100];
    let (Some(words), Some(body)) = (list.get(..numbers.len()), room.get_mut(..bytes.len())) else {
        return false;
    };
    pack_g(words, width.bits(), body).is_ok()
        && same_bytes(body, bytes)
        && same_words(words, width, body)
}

// Whether the bytes are these numbers.
fn same_bytes(body: &[u8], bytes: &[u64]) -> bool {
    body.iter()
        .zip(bytes)
        .all(|(&byte, &number)| u64::from(byte) == number)
}

// The lowest bits of a word, as many as the width says.
fn masked(word: u32, width: Width) -> u64 {
    let rest = 64 - width.bits();
    let shifted = (word as u64) << rest;
    shifted >> rest
}

// Whether each word, cut to the width, is read back at its place.
fn same_words(words: &[u32], width: Width, body: &[u8]) -> bool {
    for (at, &word) in (0u32..).zip(words) {
        if u64::from(unpack_g_at(body, at, width.bits())) != masked(word, width) {
            return false;
        }
    }
    true
}
